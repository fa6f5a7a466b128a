//! `Words`: any list of words that can be read and changed. It knows no layout.
ghost use Rattle.std.specs.Prelude.{◌≡◌, ℕ, ◌<◌, List, length, slice_index, slice_set};

/// A list of words that can be read and changed one at a time.
pub trait Words {
    /// The words in order.
    ghost words: { Self → List ℕ };

    /// What there is besides the words.
    ghost Rest: { Type 0 };

    /// The rest, which neither reading nor storing a word changes.
    ghost rest: { Self → Rest };

    /// The word at this place. No word changes, though reading it may be a step of its reader.
    fn load(&mut self, at: usize) -> u64
        requires { at < length (words self.old) }
        ensures word { result ≡ slice_index (words self.old) at }
        ensures same { words self.new ≡ words self.old }
        ensures same_rest { rest self.new ≡ rest self.old };

    /// Puts a word in this place, and leaves all others as they are.
    fn store(&mut self, at: usize, word: u64)
        requires { at < length (words self.old) }
        ensures stored { words self.new ≡ slice_set (words self.old) at word }
        ensures same_rest { rest self.new ≡ rest self.old };

    /// The number of words.
    fn len(&self) -> usize
        ensures { result ≡ length (words self.now) };
}
