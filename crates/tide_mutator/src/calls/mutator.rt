//! `Mutator`: a mutator of a heap, as it is between two calls.
ghost use Rattle.std.specs.Prelude.{◌≡◌, ◌%◌, ◌^◌};
ghost use Rattle.tide_mutator.specs.owed.Standing.{claims_of};
ghost use Rattle.tide_heap.specs.tide_core.machine.May.{Rests};

use crate::calls::own::OwnPass;
use crate::cells::cursor::AllocationCursor;
use tide_heap::Claims;

/// A mutator, with its right to step on a heap. Between its calls it owes nothing.
#[derive(Drop)]
pub struct Mutator {
    pub(crate) own: OwnPass,
    pub(crate) claims: Claims,
    /// Where its searches go on, until a cycle begins or ends.
    pub(crate) cursor: AllocationCursor,
    /// How many calls it made, modulo 2^64.
    pub(crate) calls: u64,
    ghost rests: { Rests own.pass.seat.me.0 },
    ghost counted: { calls ≡ own.pass.seat.me.0.calls % 2 ^ 64 },
    ghost claimed: { claims ≡ claims_of own.pass.seat.me.0 },
}
