//! Whether the words of a heap name shapes of a table alone, so that a snapshot may be taken of it.
ghost use Rattle.std.specs.Prelude.{◌≡◌, ◌<◌, IfSome, IsTrue, length};
ghost use Rattle.tide_layout.specs.Region.{word_count};
ghost use Rattle.tide_shape.specs.Lists.{lists_of};
ghost use Rattle.tide_retained.specs.Holding.{HasShapes, NamesShape};
ghost use Rattle.tide_words.specs.heap.Heap.{heap_of};

use tide_layout::{Layout, Region};
use tide_shape::{ShapeTable, Shapes};
use tide_words::{Words, word_structure};

/// The shape of a table of one path that has its first so many keys.
fn shape_of(table: &Shapes, keys: u32) -> Option<u32>
    ensures { IfSome result (λ shape. shape < length (lists_of table.now)) }
{
    let mut shape = 0;
    for key in 0..keys {
        shape = table.next(shape, key)?;
    }
    Some(shape)
}

/// Whether a shape of a table of one path has this number.
fn is_shape(table: &Shapes, shape: u32) -> bool
    ensures { IsTrue result → shape < length (lists_of table.now) }
{
    match shape_of(table, shape.min(64)) {
        Some(found) => found == shape,
        None => false,
    }
}

/// Whether a word names a shape of the table, if it is that of a structure.
fn names_shape(table: &Shapes, word: u64) -> bool
    ensures { IsTrue result → NamesShape (lists_of table.now) word }
{
    match word_structure(word) {
        Some(structure) => is_shape(table, structure.shape),
        None => true,
    }
}

/// Whether the words of all structures name shapes of the table.
pub fn name_shapes<W: Words>(words: &mut W, layout: &Layout, table: &Shapes) -> bool
    requires { length (W.words words.old) ≡ word_count layout.now }
    ensures named { IsTrue result → HasShapes layout.now (lists_of table.now)
        (heap_of layout.now (W.words words.old)) }
    ensures same { W.words words.new ≡ W.words words.old }
{
    for cell in 0..layout.cells() {
        let word = words.load(layout.place(Region::Structure, cell));
        if !names_shape(table, word) {
            return false;
        }
    }
    true
}
