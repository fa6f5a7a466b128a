//! The places of a layout's words, where it has them.
ghost use Rattle.std.specs.Prelude.{◌<◌, ◌≤◌, IfSome};
ghost use Rattle.tide_words.specs.tide_layout.Region.{size_of, word_count};

use tide_words::{BLOCK_SIZE, Layout, Region, class_of, class_of_array, width};

/// How many words a region has that one may write by their number in it; none of slots and of elements, which go by
/// their cell or array.
fn size(layout: &Layout, region: Region) -> u32
    ensures { result ≤ size_of layout.now region }
{
    let mutators = u32::from(layout.mutators());
    match region {
        Region::Period | Region::Phase | Region::Base => 1,
        Region::Active | Region::Call => mutators,
        Region::Stopped => mutators + u32::from(layout.visitors()),
        Region::Registers => mutators * u32::from(layout.registers()),
        Region::Strong => u32::from(layout.strong()),
        Region::Weak => u32::from(layout.weak()),
        Region::Colour | Region::Structure | Region::Array | Region::Claim | Region::Group => {
            layout.cells()
        }
        Region::GreyShared | Region::GreyMutator | Region::GreyRace => layout.cells() / BLOCK_SIZE,
        Region::Free | Region::Dead | Region::Swept => layout.block_count(),
        Region::Slots | Region::Elements => 0,
    }
}

/// The place of a region's word, where there is one.
pub fn place_of_word(layout: &Layout, region: Region, index: u32) -> Option<usize>
    ensures { IfSome result (λ at. at < word_count layout.now) }
{
    if index >= size(layout, region) {
        return None;
    }
    Some(layout.place(region, index))
}

/// The place of a slot of a cell, or of a pair of a table, where there is one.
pub fn place_of_slot(layout: &Layout, cell: u32, slot: u8) -> Option<usize>
    ensures { IfSome result (λ at. at < word_count layout.now) }
{
    if cell >= layout.cells() || slot >= width(class_of(layout, cell)) {
        return None;
    }
    Some(layout.slot(cell, slot))
}

/// The place of an element of an array, where there is one.
pub fn place_of_element(layout: &Layout, array: u32, place: u8) -> Option<usize>
    ensures { IfSome result (λ at. at < word_count layout.now) }
{
    if array >= layout.arrays() || place >= width(class_of_array(layout, array)) {
        return None;
    }
    Some(layout.element(array, place))
}
