//! The classes of cells and arrays, and the blocks and ids that each class has.
ghost use Rattle.std.specs.Prelude.{◌≡◌, ◌+◌, ◌*◌, ◌<◌, ◌≤◌};
ghost use Rattle.tide_model.specs.Layout.{array_count, block_of_array, block_of_cell, cell_count, class_of, class_of_array, first_block_of};
ghost use Rattle.tide_block.specs.Places.{bit_of, first_array_of, first_cell_of};

use tide_layout::{BLOCK_SIZE, Layout};

/// The block in which a cell lies.
pub fn block_of_cell(cell: u32) -> u32
    ensures { result ≡ block_of_cell cell }
{
    cell / BLOCK_SIZE
}

/// The block in which an array lies: blocks of arrays follow those of cells.
pub fn block_of_array(layout: &Layout, array: u32) -> u32
    ensures { result ≡ block_of_array layout.now array }
{
    layout.cells() / BLOCK_SIZE + array / BLOCK_SIZE
}

/// The bit of a cell or an array in the words of its block, from 0 to 63.
pub fn bit_of(id: u32) -> u32
    ensures place { result ≡ bit_of id }
    ensures small { result < 64 }
{
    id % BLOCK_SIZE
}

/// The first block of a class from 0 to 9. Where the class has no block, this is where it would begin.
pub fn first_block_of(layout: &Layout, class: u8) -> u32
    requires { class < 10 }
    ensures first { result ≡ first_block_of layout.now class }
    ensures few { result ≤ 262144 * class }
{
    let mut block = 0;
    for smaller in 0..class {
        block += layout.blocks(smaller);
    }
    block
}

/// The first cell of a class from 0 to 4. Where the class has no cell, this is where it would begin.
pub fn first_of(layout: &Layout, class: u8) -> u32
    requires { class < 5 }
    ensures { result ≡ first_cell_of layout.now class }
{
    BLOCK_SIZE * first_block_of(layout, class)
}

/// The first array of a class from 5 to 9. Where the class has no array, this is where it would begin.
pub fn first_array_of(layout: &Layout, class: u8) -> u32
    requires smallest { 5 ≤ class }
    requires largest { class < 10 }
    ensures { result ≡ first_array_of layout.now class }
{
    BLOCK_SIZE * first_block_of(layout, class) - layout.cells()
}

/// The class of a cell, from 0 to 4.
pub fn class_of(layout: &Layout, cell: u32) -> u8
    requires { cell < cell_count layout.now }
    ensures class { result ≡ class_of layout.now cell }
    ensures small { result < 5 }
{
    layout.class_of(cell)
}

/// The class of an array, from 5 to 9.
pub fn class_of_array(layout: &Layout, array: u32) -> u8
    requires { array < array_count layout.now }
    ensures class { result ≡ class_of_array layout.now array }
    ensures large { 5 ≤ result }
    ensures small { result < 10 }
{
    layout.class_of_array(array)
}
