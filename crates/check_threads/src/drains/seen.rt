//! The words of a heap by the names that rows give them, and the text of what one was found to be. It reads no word.
ghost use Rattle.std.specs.Prelude.{◌<◌, IfSome};
ghost use Rattle.tide_heap.specs.tide_layout.Region.{word_count};

use check_heap::{
    joined, number, number_between, pair_of_numbers, place_of_element, place_of_slot,
    place_of_word, region_of, text, word_text,
};
use std::alloc::{AllocError, Global};
use tide_heap::{Colour, Layout, Region, Structure, colour, word_array, word_structure};

/// A word of a heap, by its place.
#[derive(Clone, Copy)]
pub enum Word {
    /// One of a region, by its number.
    Of(Region, u32),
    /// A slot of a cell.
    Slot(u32, u8),
    /// An element of an array.
    Element(u32, u8),
}

/// The text of a colour.
pub fn colour_text(alloc: Global, colour: Colour) -> Result<String, AllocError> {
    let name = match colour {
        Colour::Black => "black",
        Colour::Grey => "grey",
        Colour::White => "white",
    };
    text(alloc, name)
}

/// The text of a structure: its shape, how many properties it tells, and whether it says that the array changes.
fn structure_text(alloc: Global, structure: Structure) -> Result<String, AllocError> {
    let behind = if structure.nuked {
        " properties, nuked"
    } else {
        " properties"
    };
    let shape = number_between(alloc, "shape ", u64::from(structure.shape), ", ")?;
    let count = number_between(alloc, "", u64::from(structure.count), behind)?;
    joined(alloc, &[shape.as_str(), count.as_str()])
}

impl Word {
    /// The word that two words of a row name: `REGION NUMBER`, `slot CELL.SLOT` or `element ARRAY.PLACE`.
    pub fn named(what: &str, which: &str) -> Option<Word> {
        let Some((whole, part)) = pair_of_numbers(which) else {
            return Some(Word::Of(region_of(what)?, number(which)?));
        };
        match what {
            "slot" => Some(Word::Slot(whole, part)),
            "element" => Some(Word::Element(whole, part)),
            _ => None,
        }
    }

    /// Where it lies, if the layout has it.
    pub fn place(self, layout: &Layout) -> Option<usize>
        ensures { IfSome result (λ at. at < word_count layout.now) }
    {
        match self {
            Word::Of(region, index) => place_of_word(layout, region, index),
            Word::Slot(cell, slot) => place_of_slot(layout, cell, slot),
            Word::Element(array, place) => place_of_element(layout, array, place),
        }
    }

    /// The text of what it was found to be: of a structure and an array what they tell, of a colour which one it is in
    /// a cycle, and of any other word its value.
    pub fn found_text(self, alloc: Global, word: u64, cycle: u64) -> Result<String, AllocError> {
        match self {
            Word::Of(Region::Structure, _) => match word_structure(word) {
                Some(structure) => structure_text(alloc, structure),
                None => text(alloc, "no structure"),
            },
            Word::Of(Region::Array, _) => match word_array(word) {
                Some(array) => number_between(alloc, "array ", u64::from(array), ""),
                None => text(alloc, "no array"),
            },
            Word::Of(Region::Colour, _) => colour_text(alloc, colour(word, cycle)),
            _ => word_text(alloc, word),
        }
    }
}
