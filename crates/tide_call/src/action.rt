//! `Action`: what a call is to do, with all that acting needs. It knows no word.
use tide_model::{Refusal, Val};

/// One more property of a cell.
#[derive(Clone, Copy)]
pub struct Addition {
    pub cell: u32,
    pub shape: u32,
    /// The shape with one more key.
    pub next: u32,
    /// How many properties the cell has.
    pub count: u8,
}

/// What a call is to do: `dst` is the register that gets what was read or born, `cell` the cell whose fields change.
#[derive(Clone, Copy)]
pub enum Action {
    Refuse {
        refusal: Refusal,
    },
    /// To take a free cell of a class.
    Allocate {
        dst: u8,
        class: u8,
    },
    LoadSlot {
        dst: u8,
        cell: u32,
        slot: u8,
    },
    StoreSlot {
        cell: u32,
        slot: u8,
        value: Val,
    },
    /// To fill a register, and tell no value.
    Fill {
        dst: u8,
        value: Val,
    },
    /// To fill a register with the value of a pair, and tell it.
    Show {
        dst: u8,
        table: u32,
        place: u8,
        value: Val,
    },
    /// To claim a cell where nobody does, unless the caller's claims are full.
    Claim {
        cell: u32,
        full: bool,
    },
    Release {
        cell: u32,
    },
    LoadElement {
        dst: u8,
        array: u32,
        place: u8,
    },
    StoreElement {
        cell: u32,
        array: u32,
        place: u8,
        value: Val,
    },
    /// To add a property in the cell's array.
    Append {
        addition: Addition,
        array: u32,
        value: Val,
    },
    /// To add a property in an array of a class that is still to be taken, in place of the cell's.
    Grow {
        addition: Addition,
        array: Option<u32>,
        class: u8,
        value: Val,
    },
    StoreStrong {
        at: u16,
        value: Val,
    },
    LoadStrong {
        dst: u8,
        at: u16,
    },
    StoreWeak {
        at: u16,
        value: Val,
    },
    LoadWeak {
        dst: u8,
        at: u16,
    },
    StorePair {
        table: u32,
        place: u8,
        key: u32,
        value: Val,
    },
    ClearPair {
        table: u32,
        place: u8,
    },
    Join {
        cell: u32,
        group: u32,
    },
    /// To ask for a cycle.
    Ask,
    Retire,
}
