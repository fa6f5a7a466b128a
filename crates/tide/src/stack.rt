//! A thread's root stack, which lies in its registers.
ghost use Rattle.std.specs.Prelude.{◌≡◌, ◌↔◌, ◌+◌, Err};
ghost use Rattle.tide.specs.declared.stop.Stop.TheVariants as stop;

use crate::stop::{Src, Stop};
use crate::thread::Thread;
use std::sync::Wait;
use tide_server::Op;

impl<'b, 'h> Thread<'b, 'h> {
    ghost use Rattle.tide.specs.Stacks.{HasCut, HasPushed};
    ghost use Rattle.tide.specs.Threads.{base_of, calling_of};

    /// Puts a value on the root stack, and answers its register. It is a root until its place is cut.
    pub fn push<R: Wait>(&mut self, rt: &R, val: Src) -> Result<u8, Stop>
        ensures deep { (result ≡ Err stop.Deep) ↔ (self.old.top ≡ self.old.end) }
        ensures pushed { HasPushed self.old self.new val result }
    {
        let at = self.top;
        if at == self.end {
            return Err(Stop::Deep);
        }
        self.set(rt, at, val)?;
        self.top = at + 1;
        Ok(at)
    }

    /// How many values lie on the root stack.
    pub fn height(&self) -> u8
        ensures { result + base_of self.now ≡ self.now.top }
    {
        self.top - self.base
    }

    /// Takes off what lies above a height of the root stack, which is no greater after it. The register of each value is
    /// emptied, the last one first, so that it is no root any more.
    pub fn cut<R: Wait>(&mut self, rt: &R, height: u8) -> Result<(), Stop>
        ensures cut { HasCut self.old self.new height result }
    {
        while self.top - self.base > height {
            let dst = self.top - 1;
            self.done(rt, Op::Drop { dst })?;
            self.top = dst;
        }
        Ok(())
    }
}
