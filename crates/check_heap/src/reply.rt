//! The text of a reply, as a run prints it.

use crate::texts::{number_between, text};
use std::alloc::{AllocError, Global};
use tide_model::{Refusal, Reply, Val};

/// The text of a value: `-` of none, the number, or `#` and the cell.
pub fn value_text(alloc: Global, value: Val) -> Result<String, AllocError> {
    match value {
        Val::Empty => text(alloc, "-"),
        Val::Int(n) => number_between(alloc, "", u64::from(n), ""),
        Val::Cell(cell) => number_between(alloc, "#", u64::from(cell), ""),
    }
}

/// The text of a refusal.
fn refusal_text(alloc: Global, refusal: Refusal) -> Result<String, AllocError> {
    match refusal {
        Refusal::NotCell { reg } => number_between(alloc, "r", u64::from(reg), " is no cell"),
        Refusal::IsTable => text(alloc, "is a table"),
        Refusal::NotTable => text(alloc, "no table"),
        Refusal::NoSlot { slot } => number_between(alloc, "no slot ", u64::from(slot), ""),
        Refusal::Held { by } => number_between(alloc, "held by ", u64::from(by), ""),
        Refusal::NotHeld => text(alloc, "not held"),
        Refusal::Present => text(alloc, "present"),
        Refusal::Absent => text(alloc, "absent"),
        Refusal::NoShape => text(alloc, "no shape"),
        Refusal::PairsFull => text(alloc, "pairs full"),
        Refusal::ClaimsFull => text(alloc, "claims full"),
        Refusal::Full { class } => number_between(alloc, "full ", u64::from(class), ""),
    }
}

/// The text of a reply.
pub fn reply_text(alloc: Global, reply: Reply) -> Result<String, AllocError> {
    match reply {
        Reply::Done => text(alloc, "ok"),
        Reply::Born(cell) => number_between(alloc, "#", u64::from(cell), ""),
        Reply::Seen(value) => value_text(alloc, value),
        Reply::Asked => text(alloc, "asked"),
        Reply::Refused(refusal) => refusal_text(alloc, refusal),
    }
}
