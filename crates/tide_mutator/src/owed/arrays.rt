//! The array that a growth took is filled, and replaces the one that the cell has.
ghost use Rattle.std.specs.Prelude.{◌≡◌, ◌<◌, ◌+◌, ◌^◌};
ghost use Rattle.tide_heap.specs.tide_call.ShapeWord.{whole_word};
ghost use Rattle.tide_heap.specs.tide_layout.Slots.{HasElement};
ghost use Rattle.tide_model.specs.Layout.{cell_count};
ghost use Rattle.tide_mutator.specs.owed.Replacing.{HasReplaced, OwesGrowth};

use crate::owed::growth::Growth;
use tide_heap::{Heap, HeapShapes, Pass};
use tide_model::{Place, Turnstile};

/// Fills the array that was taken, and gives it to its cell with the new structure. While the cell's array changes, its
/// structure's word says so. The turnstile is met once that word is stored, and once the array is.
pub fn replace<S: HeapShapes, T: Turnstile>(
    pass: &mut Pass,
    heap: &Heap<S>,
    turnstile: &T,
    growth: Growth,
    taken: u32,
    words: &[u64; 64],
)
    requires own { pass.old.seat.table_id ≡ heap.now.table.shared.table_id }
    requires of_layout { growth.addition.cell < cell_count heap.now.key.layout }
    requires few { growth.addition.count < 64 }
    requires next { growth.next ≡ whole_word growth.addition.next (growth.addition.count + 1) }
    requires small { growth.old + 1 < 2 ^ 64 }
    requires holds { HasElement heap.now.key.layout taken growth.addition.count }
    requires owes { OwesGrowth heap.now.key.layout pass.old.seat.me.0 pass.old.seat.me.0 growth taken words.now
        (growth.addition.count + 1) }
    ensures same_pass { (pass.new.seat.table_id ≡ pass.old.seat.table_id) × (pass.new.seat.id ≡ pass.old.seat.id) }
    ensures replaced { HasReplaced pass.old.seat.me.0 pass.new.seat.me.0 }
{
    // The array is full before a word names it: until then the old one says what the structure tells (`ArraysStand`,
    // tide_core/specs/machine/points/Arrays.antt).
    for place in (0..growth.addition.count + 1).rev() {
        pass.store_element(heap, taken, place, words[usize::from(place)], None);
    }
    // A scan loads the structure, then the array, then the structure again, and marks only where both are one word that
    // isn't nuked. The array is stored between two changes of the structure, each stage of which the view tells
    // (`GrowthsAreRight`, tide_core/specs/machine/points/Growths.antt), so such a scan loaded the array of its
    // structure (`ScansAreRight`, points/Scans.antt).
    pass.nuke(heap, growth.addition.cell, growth.old + 1);
    turnstile.at(pass.who(), Place::Nuked, growth.addition.cell);
    pass.store_array(heap, growth.addition.cell, taken);
    turnstile.at(pass.who(), Place::Stored, growth.addition.cell);
    pass.store_structure(heap, growth.addition.cell, growth.next, None);
}
