//! Operations on pairs: why one is refused, and else a pair set, read or taken out.
ghost use Rattle.std.specs.Prelude.{◌≡◌, ◌<◌, ◌∷◌, [], ℕ, None, Some, Option, IfErr, IfOk};
ghost use Rattle.tide_model.specs.Lawful.{FitsLayout};
ghost use Rattle.tide_model.specs.References.{IsLive};
ghost use Rattle.tide_model.specs.Refused.{first_of, pair_refusal};
ghost use Rattle.tide_model.specs.declared.op.Op.TheVariants.{PairDel, PairGet, PairSet};
ghost use Rattle.tide_model.specs.declared.op.Refusal.{Refusal as TheRefusal};
ghost use Rattle.tide_model.specs.declared.val.Val.TheVariants.{Cell};
ghost use Rattle.tide_plain.specs.stored.Contents.{state_of};
ghost use Rattle.tide_plain.specs.calls.Calls.{IsCall, MayCallStore};

use crate::calls::claims::holds;
use crate::calls::registers::cell_in;
use crate::stored::Contents;
use tide_block::class_of;
use tide_layout::TABLE;
use tide_model::{Refusal, Reply};

/// A table and a key cell, which two registers hold.
#[derive(Clone, Copy)]
struct PairCells {
    table: u32,
    key: u32,
}

/// The table and the key cell that two registers hold, of which the caller claims the table, or why an operation on
/// the pair is refused.
fn pair_cells(contents: &Contents, who: u32, src: u8, key: u8) -> Result<PairCells, Refusal>
    requires caller { MayCallStore contents.now who }
    requires table_register { src < contents.now.layout.registers }
    requires key_register { key < contents.now.layout.registers }
    ensures refused { IfErr result (λ refusal. (further : ℕ → ℕ → Option TheRefusal) →
        pair_refusal contents.now.layout (state_of contents.now) who src key further ≡ Some refusal) }
    ensures granted { IfOk result (λ cells. (further : ℕ → ℕ → Option TheRefusal) →
        pair_refusal contents.now.layout (state_of contents.now) who src key further ≡
        first_of (further cells.table cells.key ∷ [])) }
    ensures table { IfOk result (λ cells. (state_of contents.now).registers who src ≡ Cell cells.table) }
    ensures key { IfOk result (λ cells. (state_of contents.now).registers who key ≡ Cell cells.key) }
    ensures live { IfOk result (λ cells. IsLive (state_of contents.now) cells.table) }
{
    let table = cell_in(contents, who, src)?;
    let key = cell_in(contents, who, key)?;
    if class_of(contents.layout(), table) != TABLE {
        return Err(Refusal::NotTable);
    }
    if !holds(contents, who, table) {
        return Err(Refusal::NotHeld);
    }
    Ok(PairCells { table, key })
}

/// Puts what a register holds under the key cell of another one, in the table of a third.
pub fn pair_set(contents: &mut Contents, who: u32, src: u8, key: u8, val: u8) -> Reply
    requires caller { MayCallStore contents.old who }
    requires served { FitsLayout contents.old.layout (PairSet src key val) }
    ensures { IsCall contents.old contents.new who (PairSet src key val) result None }
{
    let cells = match pair_cells(contents, who, src, key) {
        Ok(cells) => cells,
        Err(refusal) => return Reply::Refused(refusal),
    };
    let value = contents.register(who, val);
    if contents.set_pair(cells.table, cells.key, value) {
        Reply::Done
    } else {
        Reply::Refused(Refusal::PairsFull)
    }
}

/// Reads what the table of a register has under the key cell of another one.
pub fn pair_get(contents: &mut Contents, who: u32, dst: u8, src: u8, key: u8) -> Reply
    requires caller { MayCallStore contents.old who }
    requires served { FitsLayout contents.old.layout (PairGet dst src key) }
    ensures { IsCall contents.old contents.new who (PairGet dst src key) result None }
{
    let cells = match pair_cells(contents, who, src, key) {
        Ok(cells) => cells,
        Err(refusal) => return Reply::Refused(refusal),
    };
    match contents.pair(cells.table, cells.key) {
        Some(value) => {
            contents.fill(who, dst, value);
            Reply::Seen(value)
        }
        None => Reply::Refused(Refusal::Absent),
    }
}

/// Takes the pair of the key cell of a register out of the table of another one.
pub fn pair_delete(contents: &mut Contents, who: u32, src: u8, key: u8) -> Reply
    requires caller { MayCallStore contents.old who }
    requires served { FitsLayout contents.old.layout (PairDel src key) }
    ensures { IsCall contents.old contents.new who (PairDel src key) result None }
{
    let cells = match pair_cells(contents, who, src, key) {
        Ok(cells) => cells,
        Err(refusal) => return Reply::Refused(refusal),
    };
    if contents.delete_pair(cells.table, cells.key) {
        Reply::Done
    } else {
        Reply::Refused(Refusal::Absent)
    }
}
