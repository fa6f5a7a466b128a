//! The room that a run of some scripts needs, so that it is made before the run begins. It knows no store.
//!
//! These are counts of a run, read off its scripts. What they are is proved. That this is room enough isn't: a list
//! whose room is too small grows.
ghost use Rattle.std.specs.Prelude.{◌≡◌, ◌≤◌, ◌*◌, All, length, map};
ghost use Rattle.tide_periods.specs.Room.{events_in, longest_in, operations_in};

use crate::cursor::most_calls;
use tide_model::Op;

/// How many cycles may end in one freeze.
const ENDS: usize = 2;

/// How many entries a part has beside its calls and the sweeps: it is opened, two pauses are made, two cycles end, and
/// one begins.
const ENTRIES: usize = 6;

/// What a run leaves at most.
#[derive(Clone, Copy)]
pub struct Room {
    /// The events, but for the sweeps.
    pub events: usize,
    /// The cycles that end.
    pub ends: usize,
    /// The births, and so the cells that all ends free.
    pub births: usize,
}

/// The room that a run of these scripts needs: at most 16, of at most 65,536 operations each.
///
/// A mutator makes at most twice its operations and nine calls. The events are the calls of all mutators, and six for
/// each call of the one that makes the most. The ends are twice that one's calls, and the births are the operations.
///
/// A mutator that isn't retired makes some call in each part, so there are no more parts than one mutator makes calls.
/// Each operation bears at most one cell: one that was refused and is tried again bore none.
pub fn room_for(scripts: &[Vec<Op>]) -> Room
    requires few { length scripts.now ≤ 16 }
    requires short { All (λ ops. length ops ≤ 65536) (map (λ ops. ops.items) scripts.now) }
    ensures births { result.births ≡ operations_in (map (λ ops. ops.items) scripts.now) }
    ensures ends { result.ends ≡ 2 * longest_in (map (λ ops. ops.items) scripts.now) }
    ensures events { result.events ≡ events_in (map (λ ops. ops.items) scripts.now) }
{
    let mut operations = 0usize;
    let mut calls = 0usize;
    let mut parts = 0usize;
    for ops in scripts {
        let most = most_calls(ops.len());
        operations += ops.len();
        calls += most;
        parts = if most > parts { most } else { parts };
    }
    Room {
        events: calls + parts * ENTRIES,
        ends: parts * ENDS,
        births: operations,
    }
}
