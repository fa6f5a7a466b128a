//! The word of a shape that an addition leaves.
ghost use Rattle.std.specs.Prelude.{◌≡◌, ◌+◌, ◌<◌};
ghost use Rattle.tide_heap.specs.tide_call.ShapeWord.{whole_word};

use tide_heap::{Addition, Structure, structure_word};

/// The word of the shape that a cell has after an addition.
pub fn shape_word(addition: Addition) -> u64
    requires few { addition.count < 64 }
    ensures { result ≡ whole_word addition.next (addition.count + 1) }
{
    structure_word(Structure {
        shape: addition.next,
        count: u32::from(addition.count) + 1,
        nuked: false,
    })
}
