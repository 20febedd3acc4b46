//! The promise whole, in one place and with no code, over any finders below. `specs/WordLayers.antt` and
//! `specs/PointLayers.antt` say of each layer when it is unfit and by which refusal, its shape, its set, what a find
//! answers and writes, ties included, and that its pick is best; `specs/Blocks.antt` says what stands in an open block
//! after any calls, and what each of them is answered.
#![tactic(auto)]

ghost use Rattle.std.specs.Prelude.{ℕ, List, ℤ};
ghost use Rattle.guarantees.specs.WordLayers.{RepeatPromise, WordJoinPromise, WordGluePromise, ShortenPromise};
ghost use Rattle.guarantees.specs.PointLayers.{ConstructionAPromise, ScalePromise, PointJoinPromise, PointGluePromise};
ghost use Rattle.guarantees.specs.Blocks.{BlockPromise, TwoBlocksPromise};

use finders::points::PointFinder;
use finders::words::WordFinder;

/// Each layer and each block keeps its promise over whatever finders are below, fit or not. This function does nothing:
/// what counts is that it is proved to meet its contract.
pub fn every_promise_is_kept<F: WordFinder, G: WordFinder, H: PointFinder, K: PointFinder>(
    words: &F,
    other_words: &G,
    points: &H,
    other_points: &K,
)
    ensures repeat { (a : ℕ) → RepeatPromise a (F.meaning words.now) }
    ensures join_of_words { WordJoinPromise (F.meaning words.now) (G.meaning other_words.now) }
    ensures glue_of_words { (ws : List ℕ) → WordGluePromise ws (F.meaning words.now) }
    ensures shorten { ShortenPromise (F.meaning words.now) }
    ensures construction_a { ConstructionAPromise (F.meaning words.now) }
    ensures scale { (k : ℕ) → ScalePromise k (H.meaning points.now) }
    ensures join_of_points { PointJoinPromise (H.meaning points.now) (K.meaning other_points.now) }
    ensures glue_of_points { (rows : List (List ℤ)) → PointGluePromise rows (H.meaning points.now) }
    ensures block { BlockPromise (H.meaning points.now) }
    ensures two_blocks { TwoBlocksPromise (H.meaning points.now) (K.meaning other_points.now) }
{}
