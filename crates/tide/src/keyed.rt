//! A thread's calls on properties and on pairs of tables: a claim around one call. Their cell may lie in any register but
//! the one for operands.
ghost use Rattle.std.specs.Prelude.{◌≡◌, ◌≢◌, Ok, false, true};
ghost use Rattle.tide.specs.Keyed.{claimed_by, done_by, read_by};
ghost use Rattle.tide_server.specs.tide_model.declared.op.Refusal.TheVariants.{Absent as IsAbsent};
ghost use Rattle.tide_server.specs.tide_model.declared.op.Reply.TheVariants.{Refused as IsRefused};

use crate::stop::{Src, Stop};
use crate::thread::Thread;
use std::sync::Wait;
use tide_server::{Op, Refusal, Reply, Val};

/// What was read, where it was there.
fn found(reply: Reply) -> Result<Option<Val>, Stop>
    ensures { result ≡ read_by reply }
{
    match reply {
        Reply::Seen(val) => Ok(Some(val)),
        Reply::Refused(Refusal::Absent) => Ok(None),
        Reply::Refused(refusal) => Err(Stop::Refused(refusal)),
        _ => Ok(None),
    }
}

/// Whether it was done.
fn done(reply: Reply) -> Result<(), Stop>
    ensures { result ≡ done_by reply }
{
    match reply {
        Reply::Refused(refusal) => Err(Stop::Refused(refusal)),
        _ => Ok(()),
    }
}

/// Whether the mutator with this number claimed a cell: not where it claims it already.
fn claimed(number: usize, reply: Reply) -> Result<bool, Stop>
    ensures { result ≡ claimed_by number reply }
{
    match reply {
        Reply::Refused(Refusal::Held { by }) => {
            if by as usize == number {
                return Ok(false);
            }
            Err(Stop::Refused(Refusal::Held { by }))
        }
        Reply::Refused(refusal) => Err(Stop::Refused(refusal)),
        _ => Ok(true),
    }
}

/// Whether it was refused since the key is absent.
fn is_absent(reply: Reply) -> bool
    ensures absent { result ≡ true → reply ≡ IsRefused IsAbsent }
    ensures other { result ≡ false → reply ≢ IsRefused IsAbsent }
{
    matches!(reply, Reply::Refused(Refusal::Absent))
}

impl<'b, 'h> Thread<'b, 'h> {
    ghost use Rattle.tide.specs.Keyed.{Calls, HasChanged, HasClaimed, HasDoneUnderClaim, HasMoved, HasRead};
    ghost use Rattle.tide.specs.Keyed.{HasReleased, HasStoredUnderClaim, SetsOrAdds, place_of};
    ghost use Rattle.tide.specs.Threads.{base_of, calling_of, stack_of};
    ghost use Rattle.tide_server.specs.tide_model.declared.op.Op.TheVariants as op;

    /// Claims the cell in `src`. Says whether it did: not where this thread claims it already.
    fn claim<R: Wait>(&mut self, rt: &R, src: u8) -> Result<bool, Stop>
        ensures claims { HasClaimed (calling_of self.old) (calling_of self.new) (base_of self.old) src result }
        ensures stack { stack_of self.new ≡ stack_of self.old }
    {
        if src == self.scratch() {
            return Err(Stop::Unfit);
        }
        let who = self.number();
        claimed(who, self.call(rt, Op::Claim { src })?)
    }

    /// Gives the claim up that it made.
    fn release<R: Wait>(&mut self, rt: &R, src: u8, claimed: bool)
        ensures releases { HasReleased (calling_of self.old) (calling_of self.new) src claimed }
        ensures stack { stack_of self.new ≡ stack_of self.old }
    {
        if !claimed {
            return;
        }
        // the register holds the cell still, so it is answered that it was done
        let _ = self.call(rt, Op::Release { src });
    }

    /// Makes a call on the cell in `src`, which it claims meanwhile.
    fn call_on<R: Wait>(&mut self, rt: &R, src: u8, op: Op) -> Result<Reply, Stop>
        ensures done { HasDoneUnderClaim (Calls op) (calling_of self.old) (calling_of self.new) (base_of self.old) src
            result }
        ensures stack { stack_of self.new ≡ stack_of self.old }
    {
        let claimed = self.claim(rt, src)?;
        let answer = self.call(rt, op);
        self.release(rt, src, claimed);
        answer
    }

    /// Where a value is read to first, so that `src` is there still when its claim is given up.
    fn place_for(&self, dst: u8, src: u8) -> u8
        ensures { result ≡ place_of (base_of self.now) dst src }
    {
        if dst == src { self.scratch() } else { dst }
    }

    /// Moves what was read to where it belongs.
    fn bring<R: Wait>(
        &mut self,
        rt: &R,
        dst: u8,
        place: u8,
        read: Option<Val>,
    ) -> Result<Option<Val>, Stop>
        ensures moved { HasMoved (calling_of self.old) (calling_of self.new) dst place (Ok read) result }
        ensures stack { stack_of self.new ≡ stack_of self.old }
    {
        let Some(val) = read else {
            return Ok(None);
        };
        if place == dst {
            return Ok(Some(val));
        }
        self.set(rt, dst, Src::Reg(place))?;
        Ok(Some(val))
    }

    /// What the cell in `src` has under a key. `None` where its shape lacks the key, and then `dst` is as before.
    pub fn get_key<R: Wait>(
        &mut self,
        rt: &R,
        dst: u8,
        src: u8,
        key: u32,
    ) -> Result<Option<Val>, Stop>
        ensures read { HasRead (λ place. op.GetProp place src key) (calling_of self.old) (calling_of self.new)
            (base_of self.old) dst src result }
        ensures stack { stack_of self.new ≡ stack_of self.old }
    {
        let place = self.place_for(dst, src);
        let op = Op::GetProp {
            dst: place,
            src,
            key,
        };
        let read = found(self.call_on(rt, src, op)?)?;
        self.bring(rt, dst, place, read)
    }

    /// What the table in `src` has with the cell in `key`. `None` where it has no such pair: then `dst` is as before.
    pub fn get_pair<R: Wait>(
        &mut self,
        rt: &R,
        dst: u8,
        src: u8,
        key: u8,
    ) -> Result<Option<Val>, Stop>
        ensures read { HasRead (λ place. op.PairGet place src key) (calling_of self.old) (calling_of self.new)
            (base_of self.old) dst src result }
        ensures stack { stack_of self.new ≡ stack_of self.old }
    {
        let place = self.place_for(dst, src);
        let op = Op::PairGet {
            dst: place,
            src,
            key,
        };
        let read = found(self.call_on(rt, src, op)?)?;
        self.bring(rt, dst, place, read)
    }

    /// Sets a property, or adds it where the cell's shape lacks it.
    fn set_or_add<R: Wait>(&mut self, rt: &R, src: u8, key: u32, val: u8) -> Result<Reply, Stop>
        ensures done { SetsOrAdds src key val (calling_of self.old) (calling_of self.new) result }
        ensures stack { stack_of self.new ≡ stack_of self.old }
    {
        let reply = self.call(rt, Op::SetProp { src, key, val })?;
        if is_absent(reply) {
            return self.call(rt, Op::Add { src, key, val });
        }
        Ok(reply)
    }

    /// The same with the cell in `src`, which it claims meanwhile.
    fn set_or_add_on<R: Wait>(&mut self, rt: &R, src: u8, key: u32, val: u8) -> Result<Reply, Stop>
        ensures done { HasDoneUnderClaim (SetsOrAdds src key val) (calling_of self.old) (calling_of self.new)
            (base_of self.old) src result }
        ensures stack { stack_of self.new ≡ stack_of self.old }
    {
        let claimed = self.claim(rt, src)?;
        let answer = self.set_or_add(rt, src, key, val);
        self.release(rt, src, claimed);
        answer
    }

    /// Stores a value under a key of the cell in `src`, which is added where its shape lacks it.
    pub fn set_key<R: Wait>(&mut self, rt: &R, src: u8, key: u32, val: Src) -> Result<(), Stop>
        ensures stored { HasStoredUnderClaim (SetsOrAdds src key) (calling_of self.old) (calling_of self.new)
            (base_of self.old) src val result }
        ensures stack { stack_of self.new ≡ stack_of self.old }
    {
        let val = self.register_of(rt, val)?;
        done(self.set_or_add_on(rt, src, key, val)?)
    }

    /// Stores a value with the cell in `key` in the table in `src`.
    pub fn set_pair<R: Wait>(&mut self, rt: &R, src: u8, key: u8, val: Src) -> Result<(), Stop>
        ensures stored { HasStoredUnderClaim (λ register. Calls (op.PairSet src key register)) (calling_of self.old)
            (calling_of self.new) (base_of self.old) src val result }
        ensures stack { stack_of self.new ≡ stack_of self.old }
    {
        let val = self.register_of(rt, val)?;
        done(self.call_on(rt, src, Op::PairSet { src, key, val })?)
    }

    /// Takes the pair of the cell in `key` out of the table in `src`.
    pub fn drop_pair<R: Wait>(&mut self, rt: &R, src: u8, key: u8) -> Result<(), Stop>
        ensures done { HasChanged (Calls (op.PairDel src key)) (calling_of self.old) (calling_of self.new)
            (base_of self.old) src result }
        ensures stack { stack_of self.new ≡ stack_of self.old }
    {
        done(self.call_on(rt, src, Op::PairDel { src, key })?)
    }
}
