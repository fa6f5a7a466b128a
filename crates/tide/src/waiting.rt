//! A thread has a cycle run, rests, and ends.
ghost use Rattle.std.specs.Prelude.{◌≡◌};
ghost use Rattle.tide_server.specs.tide_mutator.calls.Viewed.{view_of};

use crate::own::Own;
use crate::stop::{Src, Stop};
use crate::thread::Thread;
use std::sync::Wait;
use tide_server::{Beds, Op, Shapes, Woken};

/// The member that lies in the bed of this number wakes, once one does that has nothing to try again.
fn wake<'h, R: Wait>(rt: &R, beds: &Beds<'h, Shapes>, number: usize) -> Own<'h>
    ensures number { (view_of result.member.mutator).who ≡ number }
{
    for _ in rt.forever() {
        let Some(Woken { standing, member }) = beds.wake(rt, number) else {
            continue;
        };
        if !member.retries() {
            return Own::new(standing, member);
        }
    }
    unreachable!()
}

impl<'b, 'h> Thread<'b, 'h> {
    ghost use Rattle.tide.specs.Stacks.{HasCollected};
    ghost use Rattle.tide.specs.Threads.{base_of, calling_of, number_of, scratch_of, stack_of};

    /// Has a full cycle run: it asks for one, and makes one call more, in a later part, behind that cycle.
    pub fn collect<R: Wait>(&mut self, rt: &R) -> Result<(), Stop>
        ensures collected { HasCollected (calling_of self.old) (calling_of self.new) (scratch_of (base_of self.old))
            result }
        ensures stack { stack_of self.new ≡ stack_of self.old }
    {
        let at = self.scratch();
        self.set(rt, at, Src::Empty)?;
        self.call(rt, Op::Collect)?;
        self.set(rt, at, Src::Empty)
    }

    /// Runs `f`, which may wait for long and makes no call here. Nobody waits for this thread meanwhile, and all that
    /// it holds stays held.
    pub fn rest<R: Wait, X: Drop, F: FnOnce() -> X>(&mut self, rt: &R, f: F) -> X
        requires calls { F.IsAlwaysCallable f }
        ensures made { F.post f result }
        ensures stack { stack_of self.new ≡ stack_of self.old }
        ensures told { self.new.told ≡ self.old.told }
        ensures number { number_of self.new.own ≡ number_of self.old.own }
    {
        let Some(own) = self.own.take() else {
            unreachable!()
        };
        let number = own.number();
        let (standing, resting) = own.rest();
        if let Err(resting) = self.beds.lay(rt, standing, resting) {
            // no bed has its number: it stays awake
            self.own = Some(Own::new(standing, resting.wake()));
            return f();
        }
        let made = f();
        self.own = Some(wake(rt, self.beds, number));
        made
    }

    /// Gives its claims up, and leaves.
    pub(crate) fn leave<R: Wait>(self, rt: &R) {
        let Thread { own, .. } = self;
        if let Some(own) = own {
            own.leave(rt);
        }
    }
}
