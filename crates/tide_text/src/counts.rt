//! How many calls a run made, and how many of them were answered in each way.
ghost use Rattle.std.specs.Prelude.{◌≡◌, ◌+◌, ◌++◌, ◌∷◌, [], ℕ, List, IfOk, OnOk};
ghost use Rattle.tide_model.specs.declared.op.Reply.{Reply as ReplyValue};
ghost use Rattle.tide_text.specs.Summary.{counts_with};

use tide_model::{Memory, Reply, Val};

/// What a run comes to: its mutators and calls, the replies of each kind, and the cells that live at its end.
#[derive(Clone, Copy, Debug, PartialEq, Eq)]
pub struct Counts {
    pub mutators: u32,
    pub calls: u32,
    /// Cells that were born.
    pub born: u32,
    /// Operations that were done, with nothing to tell.
    pub ok: u32,
    /// Cells that were seen.
    pub cell: u32,
    /// Numbers that were seen.
    pub int: u32,
    /// Places that were seen empty.
    pub empty: u32,
    /// Cycles that were asked for.
    pub asked: u32,
    /// Operations that were refused.
    pub refused: u32,
    /// Cells that live at the end.
    pub live: u32,
}

/// One more, where a `u32` has room for it.
fn one_more(count: u32) -> Result<u32, Memory>
    ensures { IfOk result (λ more. more ≡ count + 1) }
{
    count.checked_add(1).ok_or(Memory)
}

impl Counts {
    /// The counts of a run that has made no call yet.
    pub fn new(mutators: u32, live: u32) -> Counts
        ensures { result ≡ counts_with mutators [] live }
    {
        Counts {
            mutators,
            calls: 0,
            born: 0,
            ok: 0,
            cell: 0,
            int: 0,
            empty: 0,
            asked: 0,
            refused: 0,
            live,
        }
    }

    /// Counts one reply more. `Err` where a `u32` has no room for the count.
    pub fn add(&mut self, reply: Reply) -> Result<(), Memory>
        ensures { OnOk result ((mutators live : ℕ) → (replies : List ReplyValue) →
            self.old ≡ counts_with mutators replies live → self.new ≡ counts_with mutators (replies ++ reply ∷ []) live) }
    {
        self.calls = one_more(self.calls)?;
        match reply {
            Reply::Done => self.ok = one_more(self.ok)?,
            Reply::Born(_) => self.born = one_more(self.born)?,
            Reply::Seen(Val::Cell(_)) => self.cell = one_more(self.cell)?,
            Reply::Seen(Val::Int(_)) => self.int = one_more(self.int)?,
            Reply::Seen(Val::Empty) => self.empty = one_more(self.empty)?,
            Reply::Asked => self.asked = one_more(self.asked)?,
            Reply::Refused(_) => self.refused = one_more(self.refused)?,
        }
        Ok(())
    }
}
