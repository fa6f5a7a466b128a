//! Where each of five classes begins: its first id, and the words of the ids before it. It knows no region.
ghost use Rattle.std.specs.Prelude.{◌≡◌, ◌<◌, ◌≤◌, ℕ, slice_index};
ghost use Rattle.tide_layout.specs.Firsts.{firsts_of};
ghost use Rattle.tide_layout.specs.Limits.{HasFewBlocks};

use crate::numbers::words_among;
use crate::sizes::BLOCK_SIZE;

/// The first id of each of five classes, and how many words the ids before it have.
#[derive(Clone, Copy, Debug, PartialEq, Eq)]
pub(crate) struct Firsts {
    pub(crate) ids: [u32; 5],
    pub(crate) words: [u32; 5],
}

/// Those of five classes from `first` on that have so many blocks.
pub(crate) fn firsts_of(blocks: &[u32; 5], first: u8) -> Firsts
    requires few_blocks { HasFewBlocks blocks.now }
    requires few { first ≤ 5 }
    ensures { result ≡ firsts_of blocks.now first }
{
    let mut ids = [0; 5];
    let mut words = [0; 5];
    let mut next = 0;
    for class in 0..5 {
        ids[class] = next;
        words[class] = words_among(blocks, first, next);
        next += BLOCK_SIZE * blocks[class];
    }
    Firsts { ids, words }
}

impl Firsts {
    /// The last of them that begins at an id or before it. No branch goes by which it is.
    pub(crate) fn class_of(&self, id: u32) -> u8
        requires { slice_index self.now.ids 0 ≤ id }
        ensures small { result < 5 }
        ensures not_before { slice_index self.now.ids result ≤ id }
        ensures last { (later : ℕ) → result < later → later < 5 → id < slice_index self.now.ids later }
    {
        let mut class = 0;
        for later in 1u8..5 {
            if self.ids[usize::from(later)] <= id {
                class = later;
            }
        }
        class
    }
}
