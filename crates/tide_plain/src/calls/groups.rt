//! The operation on groups of cells.
ghost use Rattle.std.specs.Prelude.{None};
ghost use Rattle.tide_model.specs.Lawful.{FitsLayout};
ghost use Rattle.tide_plain.specs.calls.Calls.{IsCall, MayCallStore};

use crate::calls::registers::cell_in;
use crate::stored::Contents;
use tide_model::{Op, Reply};

/// Puts the cell that a register holds into a group, or into none where `n` is 0.
pub fn group(contents: &mut Contents, who: u32, src: u8, n: u32) -> Reply
    requires caller { MayCallStore contents.old who }
    requires served { FitsLayout contents.old.layout (Op.Group src n) }
    ensures { IsCall contents.old contents.new who (Op.Group src n) result None }
{
    match cell_in(contents, who, src) {
        Ok(cell) => {
            contents.set_group(cell, n);
            Reply::Done
        }
        Err(refusal) => Reply::Refused(refusal),
    }
}
