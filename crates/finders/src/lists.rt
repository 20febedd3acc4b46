ghost use Rattle.std.specs.Prelude.{◌≡◌, ◌<◌, ◌≤◌, length, MatchOption};

// Up to N words, copied: the first `count` of an array of fixed length, since the library allocates nothing, and what holds
// words is `Copy`, which an `ArrayVec` is not. The rest of the array is not used.
#[derive(Clone, Copy)]
pub struct WordList<const N: usize> {
    count: usize,
    words: [u32; N],
    ghost held: { count ≤ N },
}

impl<const N: usize> WordList<N> {
    ghost use Rattle.finders.specs.Lists.{words_in};

    // A copy of the words; none where there are more than N.
    pub fn new(words: &[u32]) -> Option<WordList<N>>
        ensures copies_no_more_than_n_words { MatchOption result (N < length words.now) (λ l. (length words.now ≤ N) × (words_in l ≡ words.now)) }
    {
        let count = words.len();
        if count > N {
            return None;
        }
        let mut array = [0; N];
        array[..count].copy_from_slice(words);
        Some(WordList {
            count,
            words: array,
        })
    }

    pub fn all(&self) -> &[u32]
        ensures tells_the_words { result.now ≡ words_in self.now }
    {
        let count = self.count;
        &self.words[..count]
    }
}
