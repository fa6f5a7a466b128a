//! The table that threads grow. It knows no grower.
ghost use Rattle.std.specs.Prelude.{◌≡◌, IfOk};

use crate::transitions::Cells;
use std::alloc::Global;
use std::marker::Model;
use tide_model::Memory;

/// Shapes that threads make while others do. Contracts see what tells the table from others, how many keys there are,
/// and the highest number that a shape may have.
#[derive(Drop)]
pub struct GrowShapes {
    pub(crate) cells: Cells,
}

impl Model for GrowShapes {
    ghost use Rattle.tide_grow_shape.specs.growers.Grown.{Table};

    ghost Value = { Table };

    ghost use Rattle.tide_grow_shape.specs.transitions.Cells.{name_of};
    ghost use Rattle.tide_grow_shape.specs.growers.Tables.{shape_table_of};

    ghost view = { λ t. shape_table_of (name_of t.cells) };
}

impl GrowShapes {
    /// A table of the empty shape alone, for the keys below `keys`. Its shapes have numbers to 4,294,967,295.
    pub fn new(alloc: Global, keys: u32) -> Result<GrowShapes, Memory>
        ensures keys { IfOk result (λ table. table.keys ≡ keys) }
        ensures last { IfOk result (λ table. table.last ≡ 4294967295) }
    {
        GrowShapes::with_last(alloc, keys, u32::MAX)
    }

    /// A table of the empty shape alone, for the keys below `keys`, whose shapes have numbers to `last` alone: a small
    /// one, to see what becomes of a table that has no number left.
    pub fn with_last(alloc: Global, keys: u32, last: u32) -> Result<GrowShapes, Memory>
        ensures keys { IfOk result (λ table. table.keys ≡ keys) }
        ensures last { IfOk result (λ table. table.last ≡ last) }
    {
        Ok(GrowShapes {
            cells: Cells::new(alloc, keys, last)?,
        })
    }

    /// How many keys there are.
    pub fn keys(&self) -> u32
        ensures { result ≡ self.now.keys }
    {
        self.cells.keys()
    }
}
