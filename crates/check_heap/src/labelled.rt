//! A list of words with something beside it, which no call over words may change.
ghost use Rattle.std.specs.Prelude.{◌≡◌, ℕ, ◌<◌, List, length, slice_index, slice_set, IfSome};

use crate::reading::number;
use crate::texts::number_text;
use std::alloc::{AllocError, Global};
use tide_words::{Layout, VecWords, Words, is_live};

/// The words of a heap beside a label.
#[derive(Drop)]
struct Labelled {
    words: VecWords,
    label: u32,
}

impl Words for Labelled {
    ghost words = { λ s. s.words };

    ghost Rest = { ℕ };

    ghost rest = { λ s. s.label };

    fn load(&mut self, at: usize) -> u64 {
        self.words.load(at)
    }

    fn store(&mut self, at: usize, word: u64) {
        self.words.store(at, word);
    }

    fn len(&self) -> usize {
        self.words.len()
    }
}

/// The label beside the empty heap of a layout, after a call over its words that looked whether a cell is live: as it
/// was.
fn label_beside(alloc: Global, layout: &Layout, label: u32, cell: u32) -> Option<u32>
    ensures label { IfSome result (λ left. left ≡ label) }
{
    if cell >= layout.cells() {
        return None;
    }
    let words = VecWords::new(alloc, layout).ok()?;
    let mut labelled = Labelled { words, label };
    let _ = is_live(&mut labelled, layout, cell);
    Some(labelled.label)
}

/// The text of the label beside the words of an empty heap after a call that looked at a cell in them.
pub fn label_text(
    alloc: Global,
    layout: &Layout,
    label: &str,
    cell: &str,
) -> Result<Option<String>, AllocError> {
    let (Some(label), Some(cell)) = (number(label), number(cell)) else {
        return Ok(None);
    };
    match label_beside(alloc, layout, label, cell) {
        Some(left) => Ok(Some(number_text(alloc, u64::from(left))?)),
        None => Ok(None),
    }
}
