//! Operations that take a free cell.
ghost use Rattle.std.specs.Prelude.{◌<◌, None};
ghost use Rattle.tide_model.specs.Applied.{put_cell, put_register};
ghost use Rattle.tide_model.specs.Lawful.{FitsLayout};
ghost use Rattle.tide_model.specs.Layout.{cell_count};
ghost use Rattle.tide_model.specs.State.{blank_cell, live};
ghost use Rattle.tide_plain.specs.stored.Contents.{state_of, Leaves};
ghost use Rattle.tide_plain.specs.calls.Calls.{IsCall, MayCallStore};

use crate::stored::Contents;
use tide_layout::TABLE;
use tide_model::{Op, Refusal, Reply, Val};

/// A cell is born into a mutator's register.
fn bear(contents: &mut Contents, who: u32, dst: u8, cell: u32)
    requires mutator { who < contents.old.layout.mutators }
    requires register { dst < contents.old.layout.registers }
    requires cell { cell < cell_count contents.old.layout }
    ensures { Leaves contents.old contents.new (put_register
        (put_cell (state_of contents.old) cell (blank_cell live)) who dst (Val.Cell cell)) }
{
    contents.bear(cell);
    contents.fill(who, dst, Val::Cell(cell));
}

/// Takes the free cell of the class with the lowest id into a register. It is refused where none is free.
pub fn alloc(contents: &mut Contents, who: u32, dst: u8, class: u8) -> Reply
    requires caller { MayCallStore contents.old who }
    requires served { FitsLayout contents.old.layout (Op.Alloc dst class) }
    ensures { IsCall contents.old contents.new who (Op.Alloc dst class) result None }
{
    match contents.free_cell_of(class) {
        Some(cell) => {
            bear(contents, who, dst, cell);
            Reply::Born(cell)
        }
        None => Reply::Refused(Refusal::Full { class }),
    }
}

/// Takes the free table with the lowest id into a register. It is refused where none is free.
pub fn table(contents: &mut Contents, who: u32, dst: u8) -> Reply
    requires caller { MayCallStore contents.old who }
    requires served { FitsLayout contents.old.layout (Op.Table dst) }
    ensures { IsCall contents.old contents.new who (Op.Table dst) result None }
{
    match contents.free_cell_of(TABLE) {
        Some(cell) => {
            bear(contents, who, dst, cell);
            Reply::Born(cell)
        }
        None => Reply::Refused(Refusal::Full { class: TABLE }),
    }
}
