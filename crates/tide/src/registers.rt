//! What registers hold, as replies told it. It knows no heap.
ghost use Rattle.std.specs.Prelude.{◌≡◌};
ghost use Rattle.tide.specs.Registers.{left_by, stored_by, target_of, told_after, told_at};

use tide_server::{Op, Reply, Val};

/// What a register holds.
pub(crate) fn held(told: &[Val; 250], register: u8) -> Val
    ensures { result ≡ told_at told.now register }
{
    if usize::from(register) < 250 {
        told[usize::from(register)]
    } else {
        Val::Empty
    }
}

/// The register that an operation stores a value in.
fn target_of(op: Op) -> Option<u8>
    ensures { result ≡ target_of op }
{
    match op {
        Op::Alloc { dst, .. }
        | Op::Table { dst }
        | Op::Get { dst, .. }
        | Op::Move { dst, .. }
        | Op::Set { dst, .. }
        | Op::Drop { dst }
        | Op::GetProp { dst, .. }
        | Op::StrongGet { dst, .. }
        | Op::WeakGet { dst, .. }
        | Op::PairGet { dst, .. } => Some(dst),
        _ => None,
    }
}

/// The value that an operation stores there that is done.
fn stored_by(told: &[Val; 250], op: Op) -> Option<Val>
    ensures { result ≡ stored_by (told_at told.now) op }
{
    match op {
        Op::Move { src, .. } => Some(held(told, src)),
        Op::Set { n, .. } => Some(Val::Int(n)),
        Op::Drop { .. } => Some(Val::Empty),
        _ => None,
    }
}

/// The value that a call leaves there.
fn left_by(told: &[Val; 250], op: Op, reply: Reply) -> Option<Val>
    ensures { result ≡ left_by (told_at told.now) op reply }
{
    match reply {
        Reply::Born(cell) => Some(Val::Cell(cell)),
        Reply::Seen(val) => Some(val),
        Reply::Done => stored_by(told, op),
        _ => None,
    }
}

/// Keeps what a call left in the register that it stores in.
pub(crate) fn keep(told: &mut [Val; 250], op: Op, reply: Reply)
    ensures { told.new ≡ told_after op reply told.old }
{
    let Some(dst) = target_of(op) else {
        return;
    };
    let Some(val) = left_by(told, op, reply) else {
        return;
    };
    if usize::from(dst) < 250 {
        told[usize::from(dst)] = val;
    }
}
