//! What a thread's calls are given and answer: operands, and why a call did nothing. It knows no heap.
use tide_server::Refusal;

/// Why a call did nothing.
#[derive(Clone, Copy, Debug, PartialEq, Eq)]
pub enum Stop {
    /// No cell or array of the class was free, and none when it was tried again in a later part: a full cycle ran
    /// between.
    Full { class: u8 },
    /// The heap refused it, and is as before.
    Refused(Refusal),
    /// The root stack has no place left.
    Deep,
    /// An operand is none of this heap, as a register that it lacks, or it is `Retire`; or the cell of a keyed call is to
    /// be claimed by the register for operands.
    Unfit,
}

/// An operand: what a register holds, a number, or nothing.
#[derive(Clone, Copy, Debug, PartialEq, Eq)]
pub enum Src {
    Reg(u8),
    Int(u32),
    Empty,
}
