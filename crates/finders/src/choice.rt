ghost use Rattle.std.specs.Prelude.{◌≡◌, ◌≤◌, ◌⊎◌, List, [], ◌∷◌, ◌++◌, ◌≤ℤ◌, None, Some, Decides};
ghost use Rattle.std.specs.Bool.{MatchBool};
ghost use Rattle.std.specs.Iterator.{IsFinite};
ghost use Rattle.std.specs.Iterator.Runs.{CountFits, WholeRun};
ghost use Rattle.finders.specs.Choice.{Chosen, numbered};
ghost use Rattle.std.proofs.Common.{rules};

// A score with a total order. `good a b` says that a is at least as good as b: of two scores one is, this carries along
// a chain, and two scores each at least as good as the other are equal.
pub trait Score: Copy {
    ghost good: { Self → Self → Type 0 };

    fn at_least(self, other: Self) -> bool
        ensures tells_the_order { Decides result (good self other) };

    ghost total: { (a b : Self) → good a b ⊎ good b a };

    ghost chain: { (a b c : Self) → good a b → good b c → good a c };

    ghost same: { (a b : Self) → good a b → good b a → a ≡ b };
}

// Best when least, as a distance or the size of a gain.
#[derive(Clone, Copy)]
pub struct Least(pub u64);

impl Score for Least {
    ghost good = { λ a b. a.0 ≤ b.0 };

    ghost total = { Prim.search rules };

    ghost chain = { Prim.search rules };

    ghost same = { Prim.search rules };

    fn at_least(self, other: Least) -> bool {
        self.0 <= other.0
    }
}

// Best when greatest, as a correlation or the size of a residue. A type beside `Least`, and not that of a reversed order,
// which is no shorter: so a search says by the name which way it goes.
#[derive(Clone, Copy)]
pub struct Greatest(pub i64);

impl Score for Greatest {
    ghost good = { λ a b. b.0 ≤ℤ a.0 };

    ghost total = { Prim.search rules };

    ghost chain = { Prim.search rules };

    ghost same = { Prim.search rules };

    fn at_least(self, other: Greatest) -> bool {
        self.0 >= other.0
    }
}

// The first best of the candidates offered so far, with its score.
#[derive(Clone, Copy)]
pub struct FirstBest<C, S> {
    pub held: Option<(C, S)>,
}

impl<C: Copy, S: Score> FirstBest<C, S> {
    pub fn none() -> FirstBest<C, S>
        ensures holds_nothing { result.held ≡ None }
    {
        FirstBest { held: None }
    }

    // A candidate more, and whether it is better than all before. Whatever was offered before, what is then held is the first best
    // of it all.
    pub fn offer(&mut self, candidate: C, score: S) -> bool
        ensures holds_the_first_best { (offers : List (C × S)) → Chosen S.good offers self.old.held → Chosen S.good (offers ++ (candidate, score) ∷ []) self.new.held }
        ensures tells_whether_it_is_held { MatchBool result (self.new.held ≡ Some (candidate, score)) (self.new.held ≡ self.old.held) }
    {
        if self.held.is_some_and(|(_, best)| best.at_least(score)) {
            return false;
        }
        self.held = Some((candidate, score));
        true
    }
}

// The index of the first best of some scores, with that score; none where there is no score.
pub fn first_best<S: Score, I: Iterator<Item = S> + Drop>(scores: I) -> Option<(usize, S)>
    requires can { I.can_next scores }
    requires ends { IsFinite (I.remaining scores) }
    requires few { CountFits I.next_gives I.remaining 0 scores }
    ensures is_the_first_best { WholeRun I.next_gives scores (λ run. Chosen S.good (numbered 0 run.items) result) }
{
    let mut best = FirstBest::none();
    for (i, score) in scores.enumerate() {
        best.offer(i, score);
    }
    best.held
}
