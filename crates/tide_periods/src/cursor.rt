//! What one mutator asks for, by its own calls alone. It knows no store.
ghost use Rattle.std.specs.Prelude.{◌≡◌, ◌≤◌, ◌<◌, ◌+◌, false, length, ◌||◌, ◌&&◌, not, map, IfOk};
ghost use Rattle.tide_model.specs.Script.{is_full_reply};
ghost use Rattle.tide_model.specs.Script.{is_retire};
ghost use Rattle.tide_model.specs.Share.{is_asked};
ghost use Rattle.tide_periods.specs.Asking.{next_of, standing_of, AreNew, TookReply};
ghost use Rattle.tide_periods.specs.Room.{most_calls_of};

use crate::answered::Answered;
use crate::recorder::{append, with_room};
use std::alloc::Global;
use tide_model::{Memory, Op, Refusal, Reply};

fn is_asked(reply: Reply) -> bool
    ensures { result ≡ is_asked reply }
{
    matches!(reply, Reply::Asked)
}

fn is_full(reply: Reply) -> bool
    ensures { result ≡ is_full_reply reply }
{
    matches!(reply, Reply::Refused(Refusal::Full { .. }))
}

fn is_retire(op: Op) -> bool
    ensures { result ≡ is_retire op }
{
    matches!(op, Op::Retire)
}

/// A mutator of a run, by its own calls alone.
#[derive(Drop)]
pub struct ScriptCursor {
    pub(crate) who: u32,
    pub(crate) ops: Vec<Op>,
    /// How many operations are done.
    pub(crate) done: usize,
    /// The next operation was refused for room, and is tried again.
    pub(crate) retry: bool,
    pub(crate) retired: bool,
    pub(crate) calls: Vec<Answered>,
}

impl ScriptCursor {
    /// What the mutator asks next, where it holds so many claims.
    pub fn next(&self, claims: u32) -> Op
        ensures { result ≡ next_of self.now.ops.items (standing_of self.now) claims }
    {
        match self.ops.get(self.done) {
            Some(op) => *op,
            None => { if claims > 0 { Op::Unclaim } else { Op::Retire } }
        }
    }

    /// Records a reply, and answers whether the mutator stops for this part. Where this is inlined into a mutator's
    /// share, a call takes fewer instructions.
    #[inline(always)]
    pub fn take(&mut self, op: Op, reply: Reply) -> Result<bool, Memory>
        ensures took { IfOk result (λ stops. TookReply self.old self.new op reply) }
        ensures stops { IfOk result (λ stops. stops ≡ (is_asked reply || (not self.old.retry && is_full_reply reply))) }
    {
        append(&mut self.calls, Answered { op, reply })?;
        let is_first = !self.retry && is_full(reply);
        if !is_first && self.done < self.ops.len() {
            self.done += 1;
        }
        self.retry = is_first;
        self.retired = is_retire(op);
        Ok(is_asked(reply) || is_first)
    }

    /// Whether it has retired.
    pub fn has_retired(&self) -> bool
        ensures { result ≡ self.now.retired }
    {
        self.retired
    }

    /// Its calls, in order.
    pub fn into_calls(self) -> Vec<Answered>
        ensures { result ≡ self.calls }
    {
        let ScriptCursor {
            who: _,
            ops: _,
            done: _,
            retry: _,
            retired: _,
            calls,
        } = self;
        calls
    }
}

/// The most calls that a mutator with so many operations makes: each of them at most twice, as only the first refusal
/// for room is tried again, then eight unclaims and one retirement.
pub(crate) fn most_calls(operations: usize) -> usize
    ensures { operations ≤ 65536 → result ≡ most_calls_of operations }
{
    operations.saturating_mul(2).saturating_add(9)
}

/// The mutators that ask for these operations, of which none has made a call. Each has room for its calls.
pub fn cursors_of(alloc: Global, scripts: Vec<Vec<Op>>) -> Result<Vec<ScriptCursor>, Memory>
    requires { length scripts.items ≤ 16 }
    ensures { IfOk result (λ cursors. AreNew cursors.items (map (λ ops. ops.items) scripts.items)) }
{
    let mut cursors = Vec::new(alloc);
    let mut who = 0;
    for ops in scripts {
        let calls = with_room(alloc, most_calls(ops.len()))?;
        append(
            &mut cursors,
            ScriptCursor {
                who,
                ops,
                done: 0,
                retry: false,
                retired: false,
                calls,
            },
        )?;
        who += 1;
    }
    Ok(cursors)
}
