//! All that the plain store holds. It knows no operation: its methods read or change one thing.
ghost use Rattle.std.specs.Prelude.{◌≡◌, IfOk};
ghost use Rattle.tide_model.specs.State.{empty_state};
ghost use Rattle.tide_shape.specs.Lists.{lists_of};
ghost use Rattle.tide_plain.specs.stored.Contents.{state_of, IsWithinLayout};

mod cells;
mod handles;
mod mutators;
mod pairs;
mod properties;
mod reading;
mod room;
mod sweeping;

use crate::parts::{Arrays, Cells, Handles, Mutators};
use std::alloc::Global;
use std::marker::Model;
use tide_layout::Layout;
use tide_model::Memory;
use tide_shape::Shapes;

/// All that the plain store holds. Contracts see its layout, its shapes, and its state by `state_of`.
#[derive(Drop)]
pub struct Contents {
    layout: Layout,
    shapes: Shapes,
    mutators: Mutators,
    handles: Handles,
    cells: Cells,
    arrays: Arrays,
}

impl Model for Contents {
    ghost use Rattle.tide_plain.specs.stored.Stored.{Stored};
    ghost use Rattle.tide_plain.specs.stored.Contents.{IsStored};

    ghost Value = { Stored };

    ghost use Rattle.tide_plain.specs.stored.Parts.{parts_of};

    ghost view = { parts_of };

    ghost invariant = { λ c. IsStored (parts_of c) };
}

impl Contents {
    /// The contents of this layout and these shapes, in which all is free and empty.
    pub fn new(alloc: Global, layout: Layout, shapes: Shapes) -> Result<Contents, Memory>
        ensures layout { IfOk result (λ contents. contents.layout ≡ layout) }
        ensures shapes { IfOk result (λ contents. contents.shapes ≡ lists_of shapes) }
        ensures empty { IfOk result (λ contents. state_of contents ≡ empty_state) }
    {
        let mutators = Mutators::new(alloc, layout.mutators())?;
        let handles = Handles::new(alloc, layout.strong(), layout.weak())?;
        let cells = Cells::new(alloc, layout.cells() as usize)?;
        let arrays = Arrays::new(alloc, layout.arrays())?;
        Ok(Contents {
            layout,
            shapes,
            mutators,
            handles,
            cells,
            arrays,
        })
    }

    /// The layout. What lies outside of it is free and empty.
    pub fn layout(&self) -> &Layout
        ensures layout { result.now ≡ self.now.layout }
        ensures within { IsWithinLayout self.now.layout (state_of self.now) }
    {
        &self.layout
    }

    /// The shapes.
    pub fn shapes(&self) -> &Shapes
        ensures { lists_of result.now ≡ self.now.shapes }
    {
        &self.shapes
    }
}
