//! Operations on properties: why one is refused, and else a property read, written or added.
ghost use Rattle.std.specs.Prelude.{◌≡◌, ◌<◌, ℕ, List, Option, None, Some, true, length, IfErr, IfOk, OnOk};
ghost use Rattle.tide_model.specs.Applied.{place_of};
ghost use Rattle.tide_model.specs.Lawful.{FitsLayout};
ghost use Rattle.tide_model.specs.References.{IsLive};
ghost use Rattle.tide_model.specs.Refused.{first_of, holder_refusal, may_add, property_refusal, refusal_of};
ghost use Rattle.tide_model.specs.declared.op.Op.TheVariants.{Add, GetProp, SetProp};
ghost use Rattle.tide_model.specs.declared.op.Refusal.{Refusal as TheRefusal};
ghost use Rattle.tide_model.specs.declared.val.Val.TheVariants.{Cell};
ghost use Rattle.tide_plain.specs.stored.Contents.{state_of};
ghost use Rattle.tide_plain.specs.calls.Calls.{IsCall, MayCallStore};

use crate::calls::claims::holds;
use crate::calls::registers::cell_in;
use crate::stored::Contents;
use tide_block::class_of;
use tide_layout::TABLE;
use tide_model::{Refusal, Reply};

/// A property: the cell that has it, and its place among those of the cell.
#[derive(Clone, Copy)]
struct Property {
    cell: u32,
    place: u32,
}

/// The cell in a register, which has properties and which the caller claims, or why an operation on them is refused.
fn property_holder(contents: &Contents, who: u32, src: u8) -> Result<u32, Refusal>
    requires caller { MayCallStore contents.now who }
    requires register { src < contents.now.layout.registers }
    ensures refused { IfErr result (λ refusal. (further : ℕ → List (Option TheRefusal)) →
        holder_refusal contents.now.layout (state_of contents.now) who src further ≡ Some refusal) }
    ensures granted { IfOk result (λ cell. (further : ℕ → List (Option TheRefusal)) →
        holder_refusal contents.now.layout (state_of contents.now) who src further ≡ first_of (further cell)) }
    ensures cell { IfOk result (λ cell. (state_of contents.now).registers who src ≡ Cell cell) }
    ensures live { IfOk result (λ cell. IsLive (state_of contents.now) cell) }
{
    let cell = cell_in(contents, who, src)?;
    if class_of(contents.layout(), cell) == TABLE {
        return Err(Refusal::IsTable);
    }
    if !holds(contents, who, cell) {
        return Err(Refusal::NotHeld);
    }
    Ok(cell)
}

/// Where a property of the cell in a register stands, or why it can't be read or written.
fn find_property(contents: &Contents, who: u32, src: u8, key: u32) -> Result<Property, Refusal>
    requires caller { MayCallStore contents.now who }
    requires register { src < contents.now.layout.registers }
    ensures refused { IfErr result (λ refusal.
        property_refusal contents.now.layout (state_of contents.now) who src key ≡ Some refusal) }
    ensures granted { OnOk result (property_refusal contents.now.layout (state_of contents.now) who src key ≡ None) }
    ensures cell { IfOk result (λ at. (state_of contents.now).registers who src ≡ Cell at.cell) }
    ensures live { IfOk result (λ at. IsLive (state_of contents.now) at.cell) }
    ensures place { IfOk result (λ at. at.place ≡ place_of ((state_of contents.now).cells at.cell).keys key) }
    ensures within { IfOk result (λ at. at.place < length ((state_of contents.now).cells at.cell).keys) }
{
    let cell = property_holder(contents, who, src)?;
    match contents.place(cell, key) {
        Some(place) => Ok(Property { cell, place }),
        None => Err(Refusal::Absent),
    }
}

/// Reads a property of the cell in a register into another register.
pub fn get_property(contents: &mut Contents, who: u32, dst: u8, src: u8, key: u32) -> Reply
    requires caller { MayCallStore contents.old who }
    requires served { FitsLayout contents.old.layout (GetProp dst src key) }
    ensures { IsCall contents.old contents.new who (GetProp dst src key) result None }
{
    match find_property(contents, who, src, key) {
        Ok(at) => {
            let value = contents.property(at.cell, at.place);
            contents.fill(who, dst, value);
            Reply::Seen(value)
        }
        Err(refusal) => Reply::Refused(refusal),
    }
}

/// Puts what a register holds into a property of the cell in another one.
pub fn set_property(contents: &mut Contents, who: u32, src: u8, key: u32, val: u8) -> Reply
    requires caller { MayCallStore contents.old who }
    requires served { FitsLayout contents.old.layout (SetProp src key val) }
    ensures { IsCall contents.old contents.new who (SetProp src key val) result None }
{
    match find_property(contents, who, src, key) {
        Ok(at) => {
            let value = contents.register(who, val);
            contents.set_property(at.cell, at.place, value);
            Reply::Done
        }
        Err(refusal) => Reply::Refused(refusal),
    }
}

/// The cell in a register where it may get one more key, or why it can't. Want of room is apart.
fn extensible(contents: &Contents, who: u32, src: u8, key: u32) -> Result<u32, Refusal>
    requires caller { MayCallStore contents.now who }
    requires register { src < contents.now.layout.registers }
    ensures refused { IfErr result (λ refusal. (val : ℕ) →
        refusal_of contents.now.layout contents.now.shapes (state_of contents.now) who (Add src key val) ≡
        Some refusal) }
    ensures granted { OnOk result ((val : ℕ) →
        refusal_of contents.now.layout contents.now.shapes (state_of contents.now) who (Add src key val) ≡ None) }
    ensures cell { IfOk result (λ cell. (state_of contents.now).registers who src ≡ Cell cell) }
    ensures live { IfOk result (λ cell. IsLive (state_of contents.now) cell) }
    ensures may { IfOk result (λ cell. may_add contents.now.shapes (state_of contents.now) cell key ≡ true) }
{
    let cell = property_holder(contents, who, src)?;
    if contents.place(cell, key).is_some() {
        return Err(Refusal::Present);
    }
    if !contents.may_add(cell, key) {
        return Err(Refusal::NoShape);
    }
    Ok(cell)
}

/// Gives the cell in a register a property of one more key, with the value of another register. The answer beside
/// the reply is the array that it took for this, if it took one.
pub fn add(contents: &mut Contents, who: u32, src: u8, key: u32, val: u8) -> (Reply, Option<u32>)
    requires caller { MayCallStore contents.old who }
    requires served { FitsLayout contents.old.layout (Add src key val) }
    ensures { IsCall contents.old contents.new who (Add src key val) result.0 result.1 }
{
    let cell = match extensible(contents, who, src, key) {
        Ok(cell) => cell,
        Err(refusal) => return (Reply::Refused(refusal), None),
    };
    let value = contents.register(who, val);
    match contents.add_property(cell, key, value) {
        Ok(took) => (Reply::Done, took),
        Err(class) => (Reply::Refused(Refusal::Full { class }), None),
    }
}
