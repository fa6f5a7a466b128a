//! What C calls. Each export takes the party's box out of its handle, and puts it back.
ghost use Rattle.std.specs.Prelude.{◌≡◌, ◌≢◌, ◌⊎◌, IfSome, None, Some, false, length, true};
ghost use Rattle.tide_c.specs.Calls.{HasAnswered, HasLeft, HasPopped, HasPushed, HasRested};
ghost use Rattle.tide_c.specs.Handles.{AreEmpty, HaveRested, IsOpen, values};
ghost use Rattle.tide_c.specs.Looks.{HasFound, HasPut};
ghost use Rattle.tide_c.specs.Opened.{AreWithin, limits};
ghost use Rattle.tide_c.specs.Statuses.{AsHelper, AsKeeper, AsMember, AsSnapshot, Through, code_of, is_keeper};
ghost use Rattle.tide_c.specs.Turns.{HasLooked, HasTold, HasTurnedTo, HasVisited};
ghost use Rattle.tide_c.specs.declared.status.Status.TheVariants as status;

use crate::handle::Handle;
use crate::holding::{are_empty, is_empty, put, put_all, put_snapshot, take};
use crate::looking::Found;
use crate::opening::{Bounds, Sizes, open_parties};
use crate::operation::{Answer, Operation};
use crate::party::{Figures, Party};
use crate::status::Status;
use std::alloc::Global;
use tide::Snapshot;

/// Each member behind these handles rests. What is empty, or of another kind, stays as it is.
fn rest_all(alloc: Global, handles: &mut [Handle])
    ensures rested { HaveRested (values handles.old) (values handles.new) }
{
    for at in 0..handles.len() {
        tide_rest(alloc, &mut handles[at]);
    }
}

/// Each member behind these handles rests, if it is a keeper that is about to turn.
fn rest_before(alloc: Global, party: &Party, handles: &mut [Handle])
    ensures rested { is_keeper (Some party.now) ≡ true → HaveRested (values handles.old) (values handles.new) }
    ensures same { is_keeper (Some party.now) ≡ false → values handles.new ≡ values handles.old }
{
    if party.is_keeper() {
        rest_all(alloc, handles);
    }
}

/// The keeper behind a handle turns, once the members behind the others rest, and takes a snapshot, where one is wanted
/// and there is memory for it.
fn turn_all(
    alloc: Global,
    keeper: &mut Handle,
    members: &mut [Handle],
    looks: bool,
) -> (u32, Option<Snapshot>)
    ensures turned { Through (AsKeeper HasTurnedTo) keeper.old.value keeper.new.value result.0 }
    ensures looked { IfSome result.1 (λ taken. Through (AsKeeper (HasLooked taken)) keeper.old.value keeper.new.value
        result.0) }
    ensures rested { is_keeper keeper.old.value ≡ true → HaveRested (values members.old) (values members.new) }
    ensures same { is_keeper keeper.old.value ≡ false → values members.new ≡ values members.old }
{
    let Some(mut party) = take(alloc, keeper) else {
        return (Status::Vacant.code(), None);
    };
    rest_before(alloc, &party, members);
    let (status, taken) = party.turn(alloc, looks);
    put(keeper, party);
    (status.code(), taken)
}

/// Opens a heap of these sizes, and fills these empty handles: its keeper's, its members' and its helpers'.
#[unsafe(no_mangle)]
pub extern "C" fn tide_open(
    alloc: Global,
    sizes: &Sizes,
    keeper: &mut Handle,
    members: &mut [Handle],
    helpers: &mut [Handle],
) -> u32
    ensures opened { result ≡ code_of status.Done → IsOpen sizes.now keeper.new.value (values members.new)
        (values helpers.new) }
    ensures size { (result ≡ code_of status.Size → AreWithin sizes.now (length members.old) (length helpers.old) → ⊥)
        × ((AreWithin sizes.now (length members.old) (length helpers.old) → ⊥) → result ≡ code_of status.Size) }
    ensures filled { result ≡ code_of status.Filled → AreEmpty keeper.old.value (values members.old)
        (values helpers.old) → ⊥ }
    ensures were_empty { result ≢ code_of status.Size → result ≢ code_of status.Filled → AreEmpty keeper.old.value
        (values members.old) (values helpers.old) }
    ensures answers { (result ≡ code_of status.Done) ⊎ (result ≡ code_of status.Size)
        ⊎ (result ≡ code_of status.Filled) ⊎ (result ≡ code_of status.Memory) }
    ensures same { result ≢ code_of status.Done → (keeper.new.value ≡ keeper.old.value)
        × (values members.new ≡ values members.old) × (values helpers.new ≡ values helpers.old) }
{
    let (many, visitors) = (members.len(), helpers.len());
    if !sizes.are_within(many, visitors) {
        return Status::Size.code();
    }
    if !is_empty(alloc, keeper) || !are_empty(alloc, members) || !are_empty(alloc, helpers) {
        return Status::Filled.code();
    }
    let Ok(parties) = open_parties(alloc, sizes, many, visitors) else {
        return Status::Memory.code();
    };
    put(keeper, parties.keeper);
    put_all(members, parties.members);
    put_all(helpers, parties.helpers);
    Status::Done.code()
}

/// Gives back what is behind a handle, which is empty then. The heap is given back with its last party.
#[unsafe(no_mangle)]
pub extern "C" fn tide_close(alloc: Global, handle: &mut Handle) -> u32
    ensures empty { handle.new.value ≡ None }
    ensures vacant { handle.old.value ≡ None → result ≡ code_of status.Vacant }
    ensures done { handle.old.value ≢ None → result ≡ code_of status.Done }
{
    let Some(party) = take(alloc, handle) else {
        return Status::Vacant.code();
    };
    drop(party);
    Status::Done.code()
}

/// Makes a call of a member, where a part is open for it.
#[unsafe(no_mangle)]
pub extern "C" fn tide_call(
    alloc: Global,
    member: &mut Handle,
    operation: &Operation,
    answer: &mut Answer,
) -> u32
    ensures called { Through (AsMember (HasAnswered operation.now answer.old answer.new)) member.old.value
        member.new.value result }
    ensures untold { result ≢ code_of status.Done → result ≢ code_of status.Again → answer.new ≡ answer.old }
{
    let Some(mut party) = take(alloc, member) else {
        return Status::Vacant.code();
    };
    let status = party.call(*operation, answer);
    put(member, party);
    status.code()
}

/// Puts what a register of a member holds on its root stack, where a part is open for it, and tells where it lies.
#[unsafe(no_mangle)]
pub extern "C" fn tide_push(alloc: Global, member: &mut Handle, src: u8, at: &mut u8) -> u32
    ensures pushed { Through (AsMember (HasPushed src at.old at.new)) member.old.value member.new.value result }
    ensures untold { result ≢ code_of status.Done → at.new ≡ at.old }
{
    let Some(mut party) = take(alloc, member) else {
        return Status::Vacant.code();
    };
    let status = party.push(src, at);
    put(member, party);
    status.code()
}

/// Takes the last value off the root stack of a member, where a part is open for it. Its register is empty then.
#[unsafe(no_mangle)]
pub extern "C" fn tide_cut(alloc: Global, member: &mut Handle) -> u32
    ensures popped { Through (AsMember HasPopped) member.old.value member.new.value result }
{
    let Some(mut party) = take(alloc, member) else {
        return Status::Vacant.code();
    };
    let status = party.pop();
    put(member, party);
    status.code()
}

/// A member comes to the next freeze: its thread is about to wait, or another one begins and stops in its place.
#[unsafe(no_mangle)]
pub extern "C" fn tide_rest(alloc: Global, member: &mut Handle) -> u32
    ensures rested { Through (AsMember HasRested) member.old.value member.new.value result }
{
    let Some(mut party) = take(alloc, member) else {
        return Status::Vacant.code();
    };
    let status = party.rest();
    put(member, party);
    status.code()
}

/// A member leaves for good, where it claims nothing. Its handle stays to be closed.
#[unsafe(no_mangle)]
pub extern "C" fn tide_leave(alloc: Global, member: &mut Handle) -> u32
    ensures left { Through (AsMember HasLeft) member.old.value member.new.value result }
{
    let Some(mut party) = take(alloc, member) else {
        return Status::Vacant.code();
    };
    let status = party.leave();
    put(member, party);
    status.code()
}

/// All of these members that haven't left rest, and the keeper freezes the open part, collects as is due, and opens the
/// next one. It waits for nobody: where a note of a member or a helper is still due, it says so.
#[unsafe(no_mangle)]
pub extern "C" fn tide_turn(alloc: Global, keeper: &mut Handle, members: &mut [Handle]) -> u32
    ensures turned { Through (AsKeeper HasTurnedTo) keeper.old.value keeper.new.value result }
    ensures rested { is_keeper keeper.old.value ≡ true → HaveRested (values members.old) (values members.new) }
    ensures same { is_keeper keeper.old.value ≡ false → values members.new ≡ values members.old }
{
    let (code, _) = turn_all(alloc, keeper, members, false);
    code
}

/// Turns as `tide_turn` does, and puts a snapshot of the frozen heap into an empty handle, if memory is there.
#[unsafe(no_mangle)]
pub extern "C" fn tide_look(
    alloc: Global,
    keeper: &mut Handle,
    members: &mut [Handle],
    snapshot: &mut Handle,
) -> u32
    ensures filled { snapshot.old.value ≢ None → (result ≡ code_of status.Filled)
        × (keeper.new.value ≡ keeper.old.value) × (values members.new ≡ values members.old)
        × (snapshot.new.value ≡ snapshot.old.value) }
    ensures turned { snapshot.old.value ≡ None →
        Through (AsKeeper HasTurnedTo) keeper.old.value keeper.new.value result }
    ensures rested { snapshot.old.value ≡ None → is_keeper keeper.old.value ≡ true →
        HaveRested (values members.old) (values members.new) }
    ensures same { snapshot.old.value ≡ None → is_keeper keeper.old.value ≡ false →
        values members.new ≡ values members.old }
    ensures looked { snapshot.old.value ≡ None → (snapshot.new.value ≡ None)
        ⊎ HasPut keeper.old.value keeper.new.value snapshot.new.value result }
{
    if !is_empty(alloc, snapshot) {
        return Status::Filled.code();
    }
    let (code, taken) = turn_all(alloc, keeper, members, true);
    put_snapshot(alloc, snapshot, taken);
    code
}

/// What a snapshot tells of a cell.
#[unsafe(no_mangle)]
pub extern "C" fn tide_find(
    alloc: Global,
    snapshot: &mut Handle,
    cell: u32,
    found: &mut Found,
) -> u32
    ensures found { Through (AsSnapshot (HasFound cell found.new)) snapshot.old.value snapshot.new.value result }
    ensures untold { result ≢ code_of status.Done → found.new ≡ found.old }
{
    let Some(party) = take(alloc, snapshot) else {
        return Status::Vacant.code();
    };
    let status = party.find(cell, found);
    put(snapshot, party);
    status.code()
}

/// A helper takes part in the open part: it marks at most as many cells as a member has calls.
#[unsafe(no_mangle)]
pub extern "C" fn tide_visit(alloc: Global, helper: &mut Handle) -> u32
    ensures visited { Through (AsHelper HasVisited) helper.old.value helper.new.value result }
{
    let Some(mut party) = take(alloc, helper) else {
        return Status::Vacant.code();
    };
    let status = party.visit();
    put(helper, party);
    status.code()
}

/// What a keeper's turns came to.
#[unsafe(no_mangle)]
pub extern "C" fn tide_stats(alloc: Global, keeper: &mut Handle, out: &mut Figures) -> u32
    ensures told { Through (AsKeeper (HasTold out.new)) keeper.old.value keeper.new.value result }
    ensures untold { result ≢ code_of status.Done → out.new ≡ out.old }
{
    let Some(party) = take(alloc, keeper) else {
        return Status::Vacant.code();
    };
    let status = party.figures(out);
    put(keeper, party);
    status.code()
}

/// The most of each size, and the least of calls and of visits.
#[unsafe(no_mangle)]
pub extern "C" fn tide_limits(out: &mut Bounds) -> u32
    ensures limits { out.new ≡ limits }
    ensures done { result ≡ code_of status.Done }
{
    *out = Bounds::of_heaps();
    Status::Done.code()
}
