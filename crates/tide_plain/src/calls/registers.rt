//! Operations on registers, and the cell that a register holds.
ghost use Rattle.std.specs.Prelude.{◌≡◌, ◌<◌, Some, None, IfOk, IfErr};
ghost use Rattle.tide_model.specs.declared.val.Val.TheVariants.{Cell};
ghost use Rattle.tide_model.specs.Lawful.{FitsLayout};
ghost use Rattle.tide_model.specs.References.{IsLive};
ghost use Rattle.tide_plain.specs.stored.Contents.{state_of};
ghost use Rattle.tide_plain.specs.calls.Calls.{IsCall, MayCallStore};
ghost use Rattle.tide_plain.specs.calls.Registers.{not_cell};

use crate::stored::Contents;
use tide_model::{Op, Refusal, Reply, Val};

/// The cell that a register of the caller holds, or that it holds none.
pub fn cell_in(contents: &Contents, who: u32, register: u8) -> Result<u32, Refusal>
    requires caller { MayCallStore contents.now who }
    requires register { register < contents.now.layout.registers }
    ensures cell { IfOk result (λ cell. (state_of contents.now).registers who register ≡ Cell cell) }
    ensures live { IfOk result (λ cell. IsLive (state_of contents.now) cell) }
    ensures none { IfErr result (λ refusal. not_cell ((state_of contents.now).registers who register) register ≡
        Some refusal) }
{
    match contents.register(who, register) {
        Val::Cell(cell) => Ok(cell),
        _ => Err(Refusal::NotCell { reg: register }),
    }
}

/// Puts what a register holds into another one.
pub fn move_register(contents: &mut Contents, who: u32, dst: u8, src: u8) -> Reply
    requires caller { MayCallStore contents.old who }
    requires served { FitsLayout contents.old.layout (Op.Move dst src) }
    ensures { IsCall contents.old contents.new who (Op.Move dst src) result None }
{
    let value = contents.register(who, src);
    contents.fill(who, dst, value);
    Reply::Done
}

/// Puts a number into a register.
pub fn set(contents: &mut Contents, who: u32, dst: u8, n: u32) -> Reply
    requires caller { MayCallStore contents.old who }
    requires served { FitsLayout contents.old.layout (Op.Set dst n) }
    ensures { IsCall contents.old contents.new who (Op.Set dst n) result None }
{
    contents.fill(who, dst, Val::Int(n));
    Reply::Done
}

/// Empties a register.
pub fn drop_register(contents: &mut Contents, who: u32, dst: u8) -> Reply
    requires caller { MayCallStore contents.old who }
    requires served { FitsLayout contents.old.layout (Op.Drop dst) }
    ensures { IsCall contents.old contents.new who (Op.Drop dst) result None }
{
    contents.fill(who, dst, Val::Empty);
    Reply::Done
}
