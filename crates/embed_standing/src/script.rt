//! Which calls the members of a row make, and what they are answered.
ghost use Rattle.embed_standing.specs.Playing.{HasRoomForScripts, IsScriptCall};
ghost use Rattle.std.specs.Prelude.{◌<◌};
ghost use Rattle.tide.specs.tide_model.Layout.{Layout};

use tide::{Op, Reply, Val};

/// What the members of a row do.
#[derive(Clone, Copy, PartialEq, Eq)]
pub enum Script {
    /// They set a register, so that no cell is born.
    Sets,
    /// They make cells, link them and let them go.
    Births,
    /// The same, and now and then one asks for a cycle.
    Asks,
    /// A cell is born, and a cycle is asked for.
    BornAndAsked,
    /// Each makes a cell of a class of its own that refers to itself, reads that, and lets it go.
    LoopsApart,
    /// The first asks for cycles, and the others set a register.
    OneAsks,
}

/// A call of a member that makes cells, links them and lets them go.
fn birth_call(n: u32) -> Op
    ensures { (layout : Layout) → HasRoomForScripts layout → IsScriptCall layout result }
{
    match n % 7 {
        0 => Op::Alloc {
            dst: (n / 7 % 3) as u8,
            class: 0,
        },
        1 => Op::Put {
            src: 0,
            slot: 0,
            val: 1,
        },
        2 => Op::Get {
            dst: 3,
            src: 0,
            slot: 0,
        },
        3 => Op::StrongSet {
            at: (n % 2) as u16,
            val: 0,
        },
        4 => Op::Alloc { dst: 3, class: 0 },
        5 => Op::Set { dst: 2, n },
        _ => Op::Drop {
            dst: (n / 7 % 4) as u8,
        },
    }
}

/// A call of a member that makes a cell which refers to itself, reads that, and lets it go.
fn loop_call(class: u8, slot: u8, n: u32) -> Op
    requires class { class < 2 }
    ensures { (layout : Layout) → HasRoomForScripts layout → IsScriptCall layout result }
{
    match n {
        0 => Op::Alloc { dst: 0, class },
        1 => Op::Put {
            src: 0,
            slot,
            val: 0,
        },
        2 => Op::Get {
            dst: 1,
            src: 0,
            slot,
        },
        _ => Op::Drop { dst: 0 },
    }
}

impl Script {
    /// The call with this number of the member with this number.
    pub fn call_of(self, who: usize, n: u32) -> Op
        ensures { (layout : Layout) → HasRoomForScripts layout → IsScriptCall layout result }
    {
        match self {
            Script::Sets => Op::Set { dst: 0, n },
            Script::Births => birth_call(n),
            Script::Asks if n % 35 == 5 => Op::Collect,
            Script::Asks => birth_call(n),
            Script::BornAndAsked if n == 0 => Op::Alloc { dst: 0, class: 0 },
            Script::BornAndAsked => Op::Collect,
            Script::LoopsApart if who == 0 => loop_call(0, 0, n),
            Script::LoopsApart => loop_call(1, 3, n),
            Script::OneAsks if who == 0 => Op::Collect,
            Script::OneAsks => Op::Set { dst: 0, n },
        }
    }

    /// What that call is answered, where it is one answer alone.
    pub fn reply_to(self, who: usize, n: u32) -> Option<Reply> {
        let cell = if who == 0 { 0 } else { 64 };
        match (self, n) {
            (Script::Sets, _) => Some(Reply::Done),
            (Script::BornAndAsked, 0) => Some(Reply::Born(0)),
            (Script::BornAndAsked, _) => Some(Reply::Asked),
            (Script::LoopsApart, 0) => Some(Reply::Born(cell)),
            (Script::LoopsApart, 2) => Some(Reply::Seen(Val::Cell(cell))),
            (Script::LoopsApart, _) => Some(Reply::Done),
            (Script::OneAsks, _) if who == 0 => Some(Reply::Asked),
            (Script::OneAsks, _) => Some(Reply::Done),
            _ => None,
        }
    }
}
