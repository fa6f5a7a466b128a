//! Operations on slots: which cells have them, and what they hold.
ghost use Rattle.std.specs.Prelude.{◌≡◌, ◌<◌, Some, None, IfOk, IfErr, OnOk};
ghost use Rattle.tide_model.specs.Lawful.{FitsLayout};
ghost use Rattle.tide_model.specs.References.{IsLive};
ghost use Rattle.tide_model.specs.Refused.{slot_refusal};
ghost use Rattle.tide_model.specs.declared.val.Val.TheVariants.{Cell};
ghost use Rattle.tide_plain.specs.stored.Contents.{state_of};
ghost use Rattle.tide_plain.specs.calls.Calls.{IsCall, MayCallStore};

use crate::calls::registers::cell_in;
use crate::stored::Contents;
use tide_block::{class_of, slots};
use tide_layout::TABLE;
use tide_model::{Op, Refusal, Reply};

/// The cell that a register of the caller holds, or why its slot can't be read or written.
fn slot_holder(contents: &Contents, who: u32, src: u8, slot: u8) -> Result<u32, Refusal>
    requires caller { MayCallStore contents.now who }
    requires register { src < contents.now.layout.registers }
    ensures refused { IfErr result (λ refusal.
        slot_refusal contents.now.layout ((state_of contents.now).registers who src) src slot ≡ Some refusal) }
    ensures granted { OnOk result (slot_refusal contents.now.layout
        ((state_of contents.now).registers who src) src slot ≡ None) }
    ensures holder { IfOk result (λ cell. (state_of contents.now).registers who src ≡ Cell cell) }
    ensures live { IfOk result (λ cell. IsLive (state_of contents.now) cell) }
    ensures slot { OnOk result (slot < 16) }
{
    let cell = cell_in(contents, who, src)?;
    let class = class_of(contents.layout(), cell);
    if class == TABLE {
        return Err(Refusal::IsTable);
    }
    if slot >= slots(class) {
        return Err(Refusal::NoSlot { slot });
    }
    Ok(cell)
}

/// Reads a slot of the cell that a register holds into another register.
pub fn get(contents: &mut Contents, who: u32, dst: u8, src: u8, slot: u8) -> Reply
    requires caller { MayCallStore contents.old who }
    requires served { FitsLayout contents.old.layout (Op.Get dst src slot) }
    ensures { IsCall contents.old contents.new who (Op.Get dst src slot) result None }
{
    match slot_holder(contents, who, src, slot) {
        Ok(cell) => {
            let value = contents.slot(cell, slot);
            contents.fill(who, dst, value);
            Reply::Seen(value)
        }
        Err(refusal) => Reply::Refused(refusal),
    }
}

/// Puts what a register holds into a slot of the cell that another one holds.
pub fn put(contents: &mut Contents, who: u32, src: u8, slot: u8, val: u8) -> Reply
    requires caller { MayCallStore contents.old who }
    requires served { FitsLayout contents.old.layout (Op.Put src slot val) }
    ensures { IsCall contents.old contents.new who (Op.Put src slot val) result None }
{
    match slot_holder(contents, who, src, slot) {
        Ok(cell) => {
            let value = contents.register(who, val);
            contents.set_slot(cell, slot, value);
            Reply::Done
        }
        Err(refusal) => Reply::Refused(refusal),
    }
}
