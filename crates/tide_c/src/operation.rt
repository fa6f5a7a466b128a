//! Operations and replies as C writes and reads them: a kind, and numbers.
ghost use Rattle.std.specs.Prelude.{◌≡◌, ◌≢◌, ◌≤◌, ◌<◌, IfSome};
ghost use Rattle.tide.specs.tide_model.declared.op.Op.TheVariants.{Retire};
ghost use Rattle.tide_c.specs.Operations.{cause_of, op_of, said, told_of};

use tide::{Op, Refusal, Reply, Val};

/// An operation: its kind, and the operands that such a one has; the others may be any numbers.
#[repr(C)]
#[derive(Clone, Copy)]
pub struct Operation {
    pub kind: u16,
    /// Of a strong or a weak handle.
    pub handle: u16,
    /// A number that is set or names a group, or a property's key.
    pub number: u32,
    /// Registers: what is written, what is asked, and a value.
    pub dst: u8,
    pub src: u8,
    pub val: u8,
    /// A slot, a class of cells, or the register of a pair's key.
    pub at: u8,
}

/// A reply: its kind, what it tells of, and a number.
#[repr(C)]
#[derive(Clone, Copy)]
pub struct Answer {
    pub kind: u32,
    pub what: u32,
    pub value: u32,
}

impl Operation {
    /// An operation of cells, slots and registers.
    fn of_cells(self) -> Option<Op>
        requires { self.kind < 7 }
        ensures said { result ≡ op_of self }
        ensures goes_on { IfSome result (λ op. op ≢ Retire) }
    {
        let (dst, src, val) = (self.dst, self.src, self.val);
        match self.kind {
            0 => Some(Op::Alloc {
                dst,
                class: self.at,
            }),
            1 => Some(Op::Table { dst }),
            2 => Some(Op::Get {
                dst,
                src,
                slot: self.at,
            }),
            3 => Some(Op::Put {
                src,
                slot: self.at,
                val,
            }),
            4 => Some(Op::Move { dst, src }),
            5 => Some(Op::Set {
                dst,
                n: self.number,
            }),
            6 => Some(Op::Drop { dst }),
            _ => None,
        }
    }

    /// An operation of claims and properties.
    fn of_claims(self) -> Option<Op>
        requires from { 7 ≤ self.kind }
        requires to { self.kind < 13 }
        ensures said { result ≡ op_of self }
        ensures goes_on { IfSome result (λ op. op ≢ Retire) }
    {
        let (dst, src, val) = (self.dst, self.src, self.val);
        let key = self.number;
        match self.kind {
            7 => Some(Op::Claim { src }),
            8 => Some(Op::Release { src }),
            9 => Some(Op::Unclaim),
            10 => Some(Op::Add { src, key, val }),
            11 => Some(Op::GetProp { dst, src, key }),
            12 => Some(Op::SetProp { src, key, val }),
            _ => None,
        }
    }

    /// An operation of handles, pairs and groups.
    fn of_handles(self) -> Option<Op>
        requires from { 13 ≤ self.kind }
        ensures said { result ≡ op_of self }
        ensures goes_on { IfSome result (λ op. op ≢ Retire) }
    {
        let (dst, src, val) = (self.dst, self.src, self.val);
        let (at, key) = (self.handle, self.at);
        match self.kind {
            13 => Some(Op::StrongSet { at, val }),
            14 => Some(Op::StrongGet { dst, at }),
            15 => Some(Op::WeakSet { at, val }),
            16 => Some(Op::WeakGet { dst, at }),
            17 => Some(Op::PairSet { src, key, val }),
            18 => Some(Op::PairGet { dst, src, key }),
            19 => Some(Op::PairDel { src, key }),
            20 => Some(Op::Group {
                src,
                n: self.number,
            }),
            21 => Some(Op::Collect),
            _ => None,
        }
    }

    /// The operation that these numbers say, where they say one.
    pub fn read(self) -> Option<Op>
        ensures said { result ≡ op_of self }
        ensures goes_on { IfSome result (λ op. op ≢ Retire) }
    {
        if self.kind < 7 {
            self.of_cells()
        } else if self.kind < 13 {
            self.of_claims()
        } else {
            self.of_handles()
        }
    }
}

/// A refusal: its cause and the number that it tells.
fn cause_of(refusal: Refusal) -> (u32, u32)
    ensures { result ≡ cause_of refusal }
{
    match refusal {
        Refusal::NotCell { reg } => (0, u32::from(reg)),
        Refusal::IsTable => (1, 0),
        Refusal::NotTable => (2, 0),
        Refusal::NoSlot { slot } => (3, u32::from(slot)),
        Refusal::Held { by } => (4, by),
        Refusal::NotHeld => (5, 0),
        Refusal::Present => (6, 0),
        Refusal::Absent => (7, 0),
        Refusal::NoShape => (8, 0),
        Refusal::PairsFull => (9, 0),
        Refusal::ClaimsFull => (10, 0),
        Refusal::Full { class } => (11, u32::from(class)),
    }
}

/// A value: whether it is empty, a number or a cell, and the number.
fn value_of(val: Val) -> (u32, u32)
    ensures { result ≡ told_of val }
{
    match val {
        Val::Empty => (0, 0),
        Val::Int(n) => (1, n),
        Val::Cell(cell) => (2, cell),
    }
}

impl Answer {
    /// A reply in numbers.
    pub fn of(reply: Reply) -> Answer
        ensures { result ≡ said reply }
    {
        let (kind, (what, value)) = match reply {
            Reply::Done => (0, (0, 0)),
            Reply::Born(cell) => (1, (2, cell)),
            Reply::Seen(val) => (2, value_of(val)),
            Reply::Asked => (3, (0, 0)),
            Reply::Refused(refusal) => (4, cause_of(refusal)),
        };
        Answer { kind, what, value }
    }
}
