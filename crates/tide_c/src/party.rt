//! `Party`: who takes part in a heap, with the heap that all share, or a snapshot of one. It makes no call.
ghost use Rattle.std.specs.Prelude.{◌≡◌};
ghost use Rattle.tide_c.specs.Figures.{none_yet};

use std::alloc::Global;
use std::sync::Arc;
use tide::{Helper, Keeper, Member, Report, Shapes, Snapshot, Standing};

/// The heap that its parties share.
pub(crate) type Shared = Arc<Standing<Shapes>, Global>;

/// How far a keeper has come.
#[derive(Clone, Copy, PartialEq, Eq)]
pub enum Phase {
    /// A part is open.
    Open,
    /// All members have left.
    Over,
    /// No more part can be numbered.
    Spent,
}

/// What a keeper's turns came to.
#[repr(C)]
#[derive(Clone, Copy)]
pub struct Figures {
    /// Parts that were frozen.
    pub turns: u64,
    /// Cycles that ended.
    pub cycles: u64,
    /// Cells that they freed.
    pub freed: u64,
    /// Cells that the last one kept.
    pub kept: u64,
}

impl Figures {
    /// No turn was made.
    pub(crate) fn new() -> Figures
        ensures { result ≡ none_yet }
    {
        Figures {
            turns: 0,
            cycles: 0,
            freed: 0,
            kept: 0,
        }
    }
}

/// A heap's keeper.
#[derive(Drop)]
pub struct KeeperParty {
    pub(crate) shared: Shared,
    pub(crate) keeper: Keeper,
    /// Empty, but for its room, between two turns.
    pub(crate) report: Report,
    pub(crate) figures: Figures,
    pub(crate) phase: Phase,
}

/// A heap's member.
#[derive(Drop)]
pub struct MemberParty {
    pub(crate) shared: Shared,
    pub(crate) member: Member,
    /// It has left for good.
    pub(crate) has_left: bool,
    /// Its root stack lies in its last registers: where the stack begins, and its first free place.
    pub(crate) base: u8,
    pub(crate) top: u8,
}

/// A heap's helper.
#[derive(Drop)]
pub struct HelperParty {
    pub(crate) shared: Shared,
    pub(crate) helper: Helper,
}

/// Who takes part in a heap, or a snapshot of what it held.
#[derive(Drop)]
pub enum Party {
    Keeper(KeeperParty),
    Member(MemberParty),
    Helper(HelperParty),
    Snapshot(Snapshot),
}
