//! Parties are taken out of handles, and put behind them.
ghost use Rattle.std.specs.Prelude.{◌≡◌, ◌≢◌, ◌⊎◌, All, IfSome, None, Some, false, length, map, true};
ghost use Rattle.tide_c.specs.Handles.{values};
ghost use Rattle.tide_c.specs.Looks.{IsTaken};
ghost use Rattle.tide_c.specs.Opened.{parties_in};
ghost use Rattle.tide_c.specs.Parties.{PartyStands};

use crate::handle::Handle;
use crate::party::Party;
use std::alloc::Global;
use std::mem::replace;
use tide::Snapshot;

/// Takes the party out of its handle, which is empty then.
pub fn take(alloc: Global, handle: &mut Handle) -> Option<Box<Party, Global>>
    ensures empty { handle.new.value ≡ None }
    ensures none { result ≡ None → handle.old.value ≡ None }
    ensures value { IfSome result (λ party. handle.old.value ≡ Some party.value) }
    ensures stands { IfSome result (λ party. PartyStands party.value) }
{
    replace(handle, Handle::empty()).into_box(alloc)
}

/// Puts a party back into its handle.
pub fn put(handle: &mut Handle, party: Box<Party, Global>)
    requires stands { PartyStands party.value }
    ensures { handle.new.value ≡ Some party.value }
{
    *handle = Handle::of(party);
}

/// Whether a handle is empty.
pub fn is_empty(alloc: Global, handle: &mut Handle) -> bool
    ensures same { handle.new.value ≡ handle.old.value }
    ensures empty { result ≡ true → handle.old.value ≡ None }
    ensures full { result ≡ false → handle.old.value ≢ None }
{
    match take(alloc, handle) {
        None => true,
        Some(party) => {
            put(handle, party);
            false
        }
    }
}

/// Whether all of these handles are empty.
pub fn are_empty(alloc: Global, handles: &mut [Handle]) -> bool
    ensures same { values handles.new ≡ values handles.old }
    ensures empty { result ≡ true → All (λ value. value ≡ None) (values handles.old) }
    ensures full { result ≡ false → All (λ value. value ≡ None) (values handles.old) → ⊥ }
{
    for at in 0..handles.len() {
        if !is_empty(alloc, &mut handles[at]) {
            return false;
        }
    }
    true
}

/// Puts parties into as many handles.
pub fn put_all(handles: &mut [Handle], parties: Vec<Box<Party, Global>>)
    requires stand { All PartyStands (parties_in parties.items) }
    requires many { length parties.items ≡ length handles.old }
    ensures { values handles.new ≡ map Some (parties_in parties.items) }
{
    let mut at = 0;
    for party in parties {
        put(&mut handles[at], party);
        at += 1;
    }
}

/// Puts a snapshot into an empty handle, if there is one, and memory for its box.
pub fn put_snapshot(alloc: Global, handle: &mut Handle, taken: Option<Snapshot>)
    requires empty { handle.old.value ≡ None }
    ensures { handle.new.value ≡ None ⊎ IsTaken taken handle.new.value }
{
    let Some(snapshot) = taken else {
        return;
    };
    if let Ok(party) = Box::new(alloc, Party::Snapshot(snapshot)) {
        put(handle, party);
    }
}
