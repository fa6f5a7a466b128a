//! Operations on claims: which cells a mutator holds, and how a claim begins and ends.
ghost use Rattle.std.specs.Prelude.{◌≡◌, ◌<◌, None, Some, length, IfErr, IfOk, IfNone, IfSome, OnOk};
ghost use Rattle.tide_model.specs.Lawful.{FitsLayout};
ghost use Rattle.tide_model.specs.Refused.{claims_most, held_by, holders_of, holds, refusal_of};
ghost use Rattle.tide_model.specs.declared.op.Op.TheVariants.{Claim, Release, Unclaim};
ghost use Rattle.tide_model.specs.declared.op.Refusal.TheVariants.{Held};
ghost use Rattle.tide_model.specs.declared.val.Val.TheVariants.{Cell};
ghost use Rattle.tide_plain.specs.stored.Contents.{state_of};
ghost use Rattle.tide_plain.specs.calls.Calls.{IsCall, MayCallStore};

use crate::calls::registers::cell_in;
use crate::stored::Contents;
use tide_model::{Refusal, Reply};

/// How many cells a mutator may claim.
const CLAIMS_MOST: usize = 8;

/// Whether a mutator claims a cell.
pub fn holds(contents: &Contents, who: u32, cell: u32) -> bool
    requires { who < contents.now.layout.mutators }
    ensures { result ≡ holds (state_of contents.now) who cell }
{
    contents.claims(who).contains(&cell)
}

/// The first mutator that claims a cell, if one does.
fn holder_of(contents: &Contents, cell: u32) -> Option<u32>
    ensures first { IfSome result (λ who. held_by (holders_of contents.now.layout (state_of contents.now) cell) ≡
        Some (Held who)) }
    ensures none { IfNone result (held_by (holders_of contents.now.layout (state_of contents.now) cell) ≡ None) }
{
    for who in 0..u32::from(contents.layout().mutators()) {
        if holds(contents, who, cell) {
            return Some(who);
        }
    }
    None
}

/// The cell in a register where the caller may claim it, or why it can't.
fn claimable(contents: &Contents, who: u32, src: u8) -> Result<u32, Refusal>
    requires caller { MayCallStore contents.now who }
    requires register { src < contents.now.layout.registers }
    ensures refused { IfErr result (λ refusal.
        refusal_of contents.now.layout contents.now.shapes (state_of contents.now) who (Claim src) ≡ Some refusal) }
    ensures granted { OnOk result (refusal_of contents.now.layout contents.now.shapes (state_of contents.now) who
        (Claim src) ≡ None) }
    ensures cell { IfOk result (λ cell. (state_of contents.now).registers who src ≡ Cell cell) }
    ensures room { OnOk result (length ((state_of contents.now).claims who) < claims_most) }
{
    let cell = cell_in(contents, who, src)?;
    if let Some(by) = holder_of(contents, cell) {
        return Err(Refusal::Held { by });
    }
    if contents.claims(who).len() >= CLAIMS_MOST {
        return Err(Refusal::ClaimsFull);
    }
    Ok(cell)
}

/// The caller claims the cell in a register.
pub fn claim(contents: &mut Contents, who: u32, src: u8) -> Reply
    requires caller { MayCallStore contents.old who }
    requires served { FitsLayout contents.old.layout (Claim src) }
    ensures { IsCall contents.old contents.new who (Claim src) result None }
{
    match claimable(contents, who, src) {
        Ok(cell) => {
            contents.claim(who, cell);
            Reply::Done
        }
        Err(refusal) => Reply::Refused(refusal),
    }
}

/// The cell in a register where the caller claims it, or why its claim can't end.
fn held(contents: &Contents, who: u32, src: u8) -> Result<u32, Refusal>
    requires caller { MayCallStore contents.now who }
    requires register { src < contents.now.layout.registers }
    ensures refused { IfErr result (λ refusal.
        refusal_of contents.now.layout contents.now.shapes (state_of contents.now) who (Release src) ≡ Some refusal) }
    ensures granted { OnOk result (refusal_of contents.now.layout contents.now.shapes (state_of contents.now) who
        (Release src) ≡ None) }
    ensures cell { IfOk result (λ cell. (state_of contents.now).registers who src ≡ Cell cell) }
{
    let cell = cell_in(contents, who, src)?;
    if holds(contents, who, cell) {
        Ok(cell)
    } else {
        Err(Refusal::NotHeld)
    }
}

/// The caller's claim on the cell in a register ends.
pub fn release(contents: &mut Contents, who: u32, src: u8) -> Reply
    requires caller { MayCallStore contents.old who }
    requires served { FitsLayout contents.old.layout (Release src) }
    ensures { IsCall contents.old contents.new who (Release src) result None }
{
    match held(contents, who, src) {
        Ok(cell) => {
            contents.release(who, cell);
            Reply::Done
        }
        Err(refusal) => Reply::Refused(refusal),
    }
}

/// The caller's oldest claim ends.
pub fn unclaim(contents: &mut Contents, who: u32) -> Reply
    requires caller { MayCallStore contents.old who }
    requires served { FitsLayout contents.old.layout Unclaim }
    ensures { IsCall contents.old contents.new who Unclaim result None }
{
    if contents.claims(who).is_empty() {
        return Reply::Refused(Refusal::NotHeld);
    }
    contents.unclaim(who);
    Reply::Done
}
