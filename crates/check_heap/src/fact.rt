//! The facts of a heap as text: a line that says what one or more of its words are.

use crate::heap::{Heap, MOST_CELLS};
use crate::reading::{behind, large_number, number, pair_of_numbers};
use crate::reply::value_text;
use crate::texts::{joined, number_between, number_text, text};
use std::alloc::{AllocError, Global};
use tide_model::Val;
use tide_words::{Region, pair_word, val_word, word_pair, word_phase, word_val};

/// The region of a name, if its words go by their number.
pub fn region_of(name: &str) -> Option<Region> {
    let region = match name {
        "period" => Region::Period,
        "phase" => Region::Phase,
        "base" => Region::Base,
        "active" => Region::Active,
        "call" => Region::Call,
        "stopped" => Region::Stopped,
        "registers" => Region::Registers,
        "strong" => Region::Strong,
        "weak" => Region::Weak,
        "colour" => Region::Colour,
        "structure" => Region::Structure,
        "array" => Region::Array,
        "claim" => Region::Claim,
        "group" => Region::Group,
        "free" => Region::Free,
        "dead" => Region::Dead,
        "grey_shared" => Region::GreyShared,
        "grey_mutator" => Region::GreyMutator,
        "grey_race" => Region::GreyRace,
        "swept" => Region::Swept,
        _ => return None,
    };
    Some(region)
}

/// The value that a word is: `-`, `#` and a cell, or `n` and a number.
pub fn value_of(word: &str) -> Option<Val> {
    if word == "-" {
        return Some(Val::Empty);
    }
    if let Some(cell) = behind("#", word) {
        return Some(Val::Cell(number(cell)?));
    }
    Some(Val::Int(number(behind("n", word)?)?))
}

/// The word of 64 bits that a word of text is: that of a value, `b` and the number of its one bit, or its number.
pub fn word_of(word: &str) -> Option<u64> {
    if let Some(value) = value_of(word) {
        return Some(val_word(value));
    }
    let Some(bit) = behind("b", word) else {
        return large_number(word);
    };
    let bit = number(bit)?;
    if bit < 64 { Some(1 << bit) } else { None }
}

/// The text of a word: that of the value that it is the word of, as `word_of` reads it, or else its number.
pub fn word_text(alloc: Global, word: u64) -> Result<String, AllocError> {
    match word_val(word) {
        Some(Val::Int(n)) => number_between(alloc, "n", u64::from(n), ""),
        Some(value) => value_text(alloc, value),
        None => number_text(alloc, word),
    }
}

/// The text of a pair's word: the key and the value, `none` of 0, or else its number.
pub fn pair_text(alloc: Global, word: u64) -> Result<String, AllocError> {
    match word_pair(word) {
        Some((key, value)) => {
            let key = number_between(alloc, "", u64::from(key), " ")?;
            let value = word_text(alloc, val_word(value))?;
            joined(alloc, &[key.as_str(), value.as_str()])
        }
        None if word == 0 => text(alloc, "none"),
        None => number_text(alloc, word),
    }
}

impl Heap {
    /// Writes what holds of a cell, and answers whether there is such a thing. A colour is of the running cycle.
    fn say_of_cell(&mut self, what: &str, cell: u32) -> bool {
        let colour = match what {
            "live" => {
                self.take_cell(cell);
                return true;
            }
            "died" => {
                self.kill_cell(cell);
                return true;
            }
            "black" => 0,
            "grey" => 2,
            _ => return false,
        };
        let (cycle, _) = word_phase(self.get(Region::Phase, 0));
        let word = cycle.wrapping_mul(4).wrapping_add(colour);
        self.set(Region::Colour, cell, word);
        true
    }

    /// Writes what holds of cells.
    fn say_of_cells(&mut self, what: &str, cells: &[&str]) -> Option<()> {
        for cell in cells {
            if !self.say_of_cell(what, number(cell)?) {
                return None;
            }
        }
        Some(())
    }

    /// Writes a word, which is named by a slot, an element, a register or its number in a region.
    fn say_word(&mut self, what: &str, at: &str, word: &str) -> Option<()> {
        let word = word_of(word)?;
        let Some((whole, part)) = pair_of_numbers(at) else {
            self.set(region_of(what)?, number(at)?, word);
            return Some(());
        };
        match what {
            "slot" => self.set_slot(whole, part, word),
            "element" => self.set_element(whole, part, word),
            "register" => self.set_register(whole, part, word),
            _ => return None,
        }
        Some(())
    }

    /// Writes a pair of a table.
    fn say_pair(&mut self, at: &str, key: &str, value: &str) -> Option<()> {
        let (table, place) = pair_of_numbers(at)?;
        let key = number(key)?;
        let value = value_of(value)?;
        if key >= MOST_CELLS {
            return None;
        }
        self.set_slot(table, place, pair_word(key, value));
        Some(())
    }

    /// Writes the properties of a cell.
    fn say_properties(&mut self, cell: &str, array: &str, count: &str) -> Option<()> {
        self.set_properties(number(cell)?, number(array)?, number(count)?);
        Some(())
    }

    /// Writes what the words of a line say: one of
    ///
    /// - `live CELLS`, `died CELLS`, `black CELLS`, `grey CELLS`, the colours being of the cycle of the phase word;
    /// - `REGION NUMBER WORD`, `slot CELL.SLOT WORD`, `element ARRAY.PLACE WORD`, `register MUTATOR.REGISTER WORD`;
    /// - `pair TABLE.PLACE KEY VALUE`;
    /// - `properties CELL ARRAY COUNT`.
    pub fn say(&mut self, words: &[&str]) -> Option<()> {
        match words {
            ["pair", at, key, value] => self.say_pair(at, key, value),
            ["properties", cell, array, count] => self.say_properties(cell, array, count),
            [what @ ("live" | "died" | "black" | "grey"), cells @ ..] => self.say_of_cells(
                what, cells,
            ),
            [what, at, word] => self.say_word(what, at, word),
            _ => None,
        }
    }

    /// The word that is named by a slot, an element or its number in a region.
    fn word(&mut self, what: &str, at: &str) -> Option<u64> {
        let Some((whole, part)) = pair_of_numbers(at) else {
            return Some(self.get(region_of(what)?, number(at)?));
        };
        match what {
            "slot" | "pair" => Some(self.slot(whole, part)),
            "element" => Some(self.element(whole, part)),
            _ => None,
        }
    }

    /// The text of a word that is named by a slot, an element or its number in a region, or of the pair at
    /// `TABLE.PLACE`.
    pub fn word_text(
        &mut self,
        alloc: Global,
        what: &str,
        at: &str,
    ) -> Result<Option<String>, AllocError> {
        let Some(word) = self.word(what, at) else {
            return Ok(None);
        };
        if what == "pair" {
            return Ok(Some(pair_text(alloc, word)?));
        }
        Ok(Some(word_text(alloc, word)?))
    }
}
