//! What the live cells of a heap hold, and which cells its roots hold: plain lists, with no word.
ghost use Rattle.std.specs.Prelude.{◌≡◌, IfNone, IfSome, None, Some};
ghost use Rattle.tide_retained.specs.Contents.{group_of, held_at, pairs_of};

use crate::Root;
use tide_model::Val;

/// A value under a key: a property under the number of its key, or the value of a pair under its key cell.
#[derive(Clone, Copy)]
pub struct Keyed {
    pub key: u32,
    pub value: Val,
}

/// What a live cell holds.
#[derive(Drop)]
pub struct Held {
    pub class: u8,
    pub slots: Vec<Val>,
    /// In the order of the cell's keys.
    pub properties: Vec<Keyed>,
    /// With keys rising.
    pub pairs: Vec<Keyed>,
    /// 0 for none.
    pub group: u32,
}

/// A root, and the cell that it holds.
#[derive(Clone, Copy)]
pub(crate) struct Rooted {
    pub root: Root,
    pub cell: u32,
}

/// What each cell holds, where it is live, and what the roots hold.
#[derive(Drop)]
pub(crate) struct Contents {
    pub cells: Vec<Option<Held>>,
    pub roots: Vec<Rooted>,
}

impl Contents {
    /// What a cell holds, where it is live.
    pub fn held(&self, cell: u32) -> Option<&Held>
        ensures some { IfSome result (λ held. held_at self.now cell ≡ Some held.now) }
        ensures none { IfNone result (held_at self.now cell ≡ None) }
    {
        match self.cells.get(cell as usize) {
            Some(Some(held)) => Some(held),
            _ => None,
        }
    }

    /// The group of a cell, and 0 where it is in none or isn't live.
    pub fn group(&self, cell: u32) -> u32
        ensures { result ≡ group_of (held_at self.now cell) }
    {
        match self.held(cell) {
            Some(held) => held.group,
            None => 0,
        }
    }

    /// The pairs of a cell.
    pub fn pairs(&self, cell: u32) -> &[Keyed]
        ensures { result.now ≡ pairs_of (held_at self.now cell) }
    {
        match self.held(cell) {
            Some(held) => held.pairs.as_slice(),
            None => &[],
        }
    }
}
