//! How much a block, a cell and an array hold: the one table of the classes' widths. It knows no layout.
ghost use Rattle.std.specs.Prelude.{◌≡◌, ◌<◌, ◌≤◌};
ghost use Rattle.tide_model.specs.Layout.{array_capacity_of, slots_of};
ghost use Rattle.tide_layout.specs.Slots.{width_of_class};

/// How many cells or arrays a block has.
pub const BLOCK_SIZE: u32 = 64;

/// The class of tables, which is the last class of cells.
pub const TABLE: u8 = 4;

/// How many pairs a table has.
pub const PAIRS: u8 = 8;

/// How many words that say nothing lie behind the words of each participant in a region, and behind each region: two
/// lines of a processor's cache, since some processors load lines by twos. A word that one thread stores often is never
/// in a line with one that another thread stores or loads, wherever the heap begins.
pub(crate) const GAP: u32 = 16;

/// The widths of the classes, in their order.
const WIDTHS: [u8; 10] = [2, 4, 8, 16, PAIRS, 4, 8, 16, 32, 64];

/// The number of words of a cell or an array of a class from 0 to 9: its slots, a table's pairs or its elements.
pub fn width(class: u8) -> u8
    requires { class < 10 }
    ensures width { result ≡ width_of_class class }
    ensures few { result ≤ 64 }
{
    WIDTHS[usize::from(class)]
}

/// The number of inline slots of a cell of a class from 0 to 4. A table, which is of class 4, has none.
pub fn slots(class: u8) -> u8
    requires { class ≤ 4 }
    ensures { result ≡ slots_of class }
{
    if class == TABLE { 0 } else { width(class) }
}

/// The number of elements of an array of a class from 5 to 9.
pub fn array_capacity(class: u8) -> u8
    requires smallest { 5 ≤ class }
    requires largest { class ≤ 9 }
    ensures { result ≡ array_capacity_of class }
{
    width(class)
}
