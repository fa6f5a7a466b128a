//! Operations, and what the store answers to them. They know no store.
use crate::val::Val;

/// An operation that a mutator may ask of the store.
///
/// `dst`, `src`, `val` and, in the operations on pairs, `key` are numbers of registers of the caller. In the
/// operations on properties `key` is a property key's number. `at` is a handle's number.
#[derive(Clone, Copy, Debug, PartialEq, Eq)]
pub enum Op {
    Alloc { dst: u8, class: u8 },
    Table { dst: u8 },
    Get { dst: u8, src: u8, slot: u8 },
    Put { src: u8, slot: u8, val: u8 },
    Move { dst: u8, src: u8 },
    Set { dst: u8, n: u32 },
    Drop { dst: u8 },
    Claim { src: u8 },
    Release { src: u8 },
    Unclaim,
    Add { src: u8, key: u32, val: u8 },
    GetProp { dst: u8, src: u8, key: u32 },
    SetProp { src: u8, key: u32, val: u8 },
    StrongSet { at: u16, val: u8 },
    StrongGet { dst: u8, at: u16 },
    WeakSet { at: u16, val: u8 },
    WeakGet { dst: u8, at: u16 },
    PairSet { src: u8, key: u8, val: u8 },
    PairGet { dst: u8, src: u8, key: u8 },
    PairDel { src: u8, key: u8 },
    Group { src: u8, n: u32 },
    Collect,
    Retire,
}

/// What the store answers to an operation.
#[derive(Clone, Copy, Debug, PartialEq, Eq)]
pub enum Reply {
    Done,
    /// The id of a new cell.
    Born(u32),
    /// A value that was read.
    Seen(Val),
    /// A cycle was asked for.
    Asked,
    Refused(Refusal),
}

/// Why the store refused an operation, in the order in which the causes are tested.
#[derive(Clone, Copy, Debug, PartialEq, Eq)]
pub enum Refusal {
    /// The register holds no cell.
    NotCell { reg: u8 },
    /// The source is a table.
    IsTable,
    /// The cell is no table.
    NotTable,
    /// The source's class has no such slot.
    NoSlot { slot: u8 },
    /// The cell is claimed by mutator `by`, the caller or another.
    Held { by: u32 },
    /// The caller has no claim on the cell, or none at all.
    NotHeld,
    /// The shape has the key.
    Present,
    /// The shape lacks the key, or the table has no pair of it.
    Absent,
    /// No declared path continues the shape with the key.
    NoShape,
    /// Eight pairs of other keys are there.
    PairsFull,
    /// The caller has eight claims.
    ClaimsFull,
    /// No cell or array of the class is free.
    Full { class: u8 },
}
