//! `VecWords`: the words of a heap in one `Vec`. It knows of no word what it says but in the empty heap.
ghost use Rattle.std.specs.Prelude.{◌≡◌, length, IfOk};
ghost use Rattle.tide_layout.specs.Region.{size_of, word_count};

use crate::{Layout, Region, Words};
use std::alloc::Global;
use std::marker::Model;
use tide_model::Memory;

/// The words of a heap in one `Vec`.
#[derive(Drop)]
pub struct VecWords {
    words: Vec<u64>,
}

impl Model for VecWords {
    ghost use Rattle.std.specs.Prelude.{ℕ, List};

    ghost Value = { List ℕ };

    ghost view = { λ s. s.words.items };
}

impl VecWords {
    ghost use Rattle.tide_words.specs.heap.EmptyHeap.{empty_heap};
    ghost use Rattle.tide_words.specs.heap.Filled.{IsFilledTo};
    ghost use Rattle.tide_words.specs.heap.Heap.{Reads};

    /// The words of the empty heap.
    pub fn new(alloc: Global, layout: &Layout) -> Result<Self, Memory>
        ensures { IfOk result (λ words. Reads layout.now words empty_heap) }
    {
        let Ok(words) = vec![in alloc; 0; layout.words()] else {
            return Err(Memory);
        };
        let mut words = VecWords { words };
        words.fill(layout, Region::Base, 1, 1);
        words.fill(layout, Region::Active, u32::from(layout.mutators()), 1);
        words.fill(layout, Region::Free, layout.block_count(), u64::MAX);
        Ok(words)
    }

    /// Puts a word into each of the `count` places of a region.
    fn fill(&mut self, layout: &Layout, region: Region, count: u32, word: u64)
        requires whole { length self.old ≡ word_count layout.now }
        requires all { count ≡ size_of layout.now region }
        ensures { IsFilledTo layout.now region word count self.old self.new }
    {
        for index in 0..count {
            self.store(layout.place(region, index), word);
        }
    }
}

impl Words for VecWords {
    ghost words = { λ s. s };

    ghost Rest = { Unit {0} };

    ghost rest = { λ _. tt };

    fn load(&mut self, at: usize) -> u64 {
        self.words[at]
    }

    fn store(&mut self, at: usize, word: u64) {
        self.words[at] = word;
    }

    fn len(&self) -> usize {
        self.words.len()
    }
}
