//! What a mutator holds by its own calls and their replies, and which replies it may be given.
//!
//! Of a drawn workload: each class of cells has one block, so a cell's number tells its class.

use std::alloc::{AllocError, Global};
use tide_model::{Op, Refusal, Reply, Val};

/// How many cells there are: 64 of each of five classes.
pub const CELLS: u32 = 320;

/// The class of tables.
const TABLE: u32 = 4;

/// What a mutator holds.
#[derive(Drop)]
pub struct Held {
    who: u32,
    registers: [Val; 16],
    /// The claimed cells, the oldest first.
    claims: Vec<u32>,
}

/// The register of the cell that an operation is on, if it is on one.
fn subject_of(op: Op) -> Option<u8> {
    match op {
        Op::Get { src, .. } | Op::Put { src, .. } | Op::Claim { src } | Op::Release { src } => Some(
            src,
        ),
        Op::Add { src, .. } | Op::GetProp { src, .. } | Op::SetProp { src, .. } => Some(src),
        Op::PairSet { src, .. } | Op::PairGet { src, .. } | Op::PairDel { src, .. } => Some(src),
        Op::Group { src, .. } => Some(src),
        _ => None,
    }
}

/// The register of the key of an operation on pairs.
fn pair_key_of(op: Op) -> Option<u8> {
    match op {
        Op::PairSet { key, .. } | Op::PairGet { key, .. } | Op::PairDel { key, .. } => Some(key),
        _ => None,
    }
}

/// The slot that an operation is on.
fn slot_of(op: Op) -> Option<u8> {
    match op {
        Op::Get { slot, .. } | Op::Put { slot, .. } => Some(slot),
        _ => None,
    }
}

/// The register that gets what an operation reads or makes.
fn target_of(op: Op) -> Option<u8> {
    match op {
        Op::Alloc { dst, .. } | Op::Table { dst } | Op::Get { dst, .. } => Some(dst),
        Op::GetProp { dst, .. } | Op::PairGet { dst, .. } => Some(dst),
        Op::StrongGet { dst, .. } | Op::WeakGet { dst, .. } => Some(dst),
        _ => None,
    }
}

/// Whether an operation is on slots or properties, which tables lack.
fn is_for_others(op: Op) -> bool {
    match op {
        Op::Get { .. } | Op::Put { .. } => true,
        Op::Add { .. } | Op::GetProp { .. } | Op::SetProp { .. } => true,
        _ => false,
    }
}

/// How many slots a cell has.
fn slots_of(cell: u32) -> u8 {
    match cell / 64 {
        0 => 2,
        1 => 4,
        2 => 8,
        3 => 16,
        _ => 0,
    }
}

/// Whether an operation may be refused so by what others did.
fn may_be_refused(op: Op, refusal: Refusal) -> bool {
    match (op, refusal) {
        (Op::Alloc { class, .. }, Refusal::Full { class: full }) => class == full,
        (Op::Table { .. }, Refusal::Full { class }) => u32::from(class) == TABLE,
        (Op::Add { .. }, Refusal::Full { class }) => class > 4 && class < 10,
        (Op::Add { .. }, Refusal::Present | Refusal::NoShape) => true,
        (Op::GetProp { .. } | Op::SetProp { .. }, Refusal::Absent) => true,
        (Op::PairGet { .. } | Op::PairDel { .. }, Refusal::Absent) => true,
        (Op::PairSet { .. }, Refusal::PairsFull) => true,
        _ => false,
    }
}

impl Held {
    /// What a mutator holds before its first call.
    pub fn new(alloc: Global, who: u32) -> Self {
        Held {
            who,
            registers: [Val::Empty; 16],
            claims: Vec::new(alloc),
        }
    }

    pub fn has_claims(&self) -> bool {
        !self.claims.is_empty()
    }

    fn get(&self, register: u8) -> Val {
        self.registers[usize::from(register % 16)]
    }

    fn set(&mut self, register: u8, value: Val) {
        self.registers[usize::from(register % 16)] = value;
    }

    /// The refusal that follows from what the mutator holds, if one does.
    fn refusal(&self, op: Op) -> Option<Refusal> {
        if op == Op::Unclaim && self.claims.is_empty() {
            return Some(Refusal::NotHeld);
        }
        let reg = subject_of(op)?;
        let Val::Cell(cell) = self.get(reg) else {
            return Some(Refusal::NotCell { reg });
        };
        if let Some(reg) = pair_key_of(op) {
            let Val::Cell(_) = self.get(reg) else {
                return Some(Refusal::NotCell { reg });
            };
        }
        self.refusal_on(op, cell)
    }

    /// The refusal of an operation on this cell.
    fn refusal_on(&self, op: Op, cell: u32) -> Option<Refusal> {
        let is_table = cell / 64 == TABLE;
        let is_held = self.claims.contains(&cell);
        if is_table && is_for_others(op) {
            return Some(Refusal::IsTable);
        }
        if !is_table && pair_key_of(op).is_some() {
            return Some(Refusal::NotTable);
        }
        match (op, slot_of(op)) {
            (_, Some(slot)) if slot >= slots_of(cell) => Some(Refusal::NoSlot { slot }),
            (_, Some(_)) | (Op::Group { .. }, _) => None,
            (Op::Claim { .. }, _) if is_held => Some(Refusal::Held { by: self.who }),
            (Op::Claim { .. }, _) => None,
            _ if is_held => None,
            _ => Some(Refusal::NotHeld),
        }
    }

    /// Whether a cell of this class may be born to the mutator: it holds no such cell.
    fn may_bear(&self, cell: u32, class: u32) -> bool {
        let is_claimed = self.claims.contains(&cell);
        let is_in_register = self.registers.contains(&Val::Cell(cell));
        cell / 64 == class && !is_claimed && !is_in_register
    }

    /// Whether the mutator may be given this reply, where no refusal follows from what it holds.
    fn may_be(&self, op: Op, reply: Reply) -> bool {
        match (op, reply) {
            (Op::Claim { .. }, Reply::Refused(Refusal::Held { by })) => by != self.who && by < 16,
            (Op::Claim { .. }, Reply::Refused(Refusal::ClaimsFull)) => self.claims.len() == 8,
            (Op::Claim { .. }, reply) => reply == Reply::Done && self.claims.len() < 8,
            (op, Reply::Refused(refusal)) => may_be_refused(op, refusal),
            (Op::Collect, reply) => reply == Reply::Asked,
            (Op::Alloc { class, .. }, Reply::Born(cell)) => self.may_bear(cell, u32::from(class)),
            (Op::Table { .. }, Reply::Born(cell)) => self.may_bear(cell, TABLE),
            (Op::Alloc { .. } | Op::Table { .. }, _) => false,
            (op, Reply::Seen(Val::Cell(cell))) => target_of(op).is_some() && cell < CELLS,
            (op, Reply::Seen(_)) => target_of(op).is_some(),
            (op, reply) => reply == Reply::Done && target_of(op).is_none(),
        }
    }

    /// Whether a reply follows from what the mutator holds, or may be given for what others did.
    pub fn allows(&self, op: Op, reply: Reply) -> bool {
        match self.refusal(op) {
            Some(refusal) => reply == Reply::Refused(refusal),
            None => self.may_be(op, reply),
        }
    }

    /// Takes what a call leaves that wasn't refused.
    fn take_done(&mut self, op: Op) -> Result<(), AllocError> {
        match op {
            Op::Move { dst, src } => self.set(dst, self.get(src)),
            Op::Set { dst, n } => self.set(dst, Val::Int(n)),
            Op::Drop { dst } => self.set(dst, Val::Empty),
            Op::Claim { src } => {
                if let Val::Cell(cell) = self.get(src) {
                    self.claims.push(cell)?;
                }
            }
            Op::Release { src } => {
                let released = self.get(src);
                self.claims.retain(|cell| Val::Cell(*cell) != released);
            }
            Op::Unclaim if !self.claims.is_empty() => {
                self.claims.remove(0);
            }
            _ => {}
        }
        Ok(())
    }

    /// Takes what a call leaves.
    pub fn take(&mut self, op: Op, reply: Reply) -> Result<(), AllocError> {
        match (target_of(op), reply) {
            (Some(dst), Reply::Born(cell)) => self.set(dst, Val::Cell(cell)),
            (Some(dst), Reply::Seen(value)) => self.set(dst, value),
            (_, Reply::Done) => self.take_done(op)?,
            _ => {}
        }
        Ok(())
    }
}
