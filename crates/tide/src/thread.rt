//! `Thread`: what a runtime's thread calls. Parts, tickets and notes are its own business.
ghost use Rattle.std.specs.Prelude.{◌≡◌, ◌<◌, ◌≤◌, IfSome, None, Some, false, true, is_some, replicate};
ghost use Rattle.tide_server.specs.tide_model.Script.{is_full_reply};
ghost use Rattle.tide_server.specs.tide_model.declared.op.Refusal.TheVariants.{Full};
ghost use Rattle.tide_server.specs.tide_model.declared.op.Reply.TheVariants.{Refused};
ghost use Rattle.tide_server.specs.tide_model.declared.val.Val.TheVariants.{Empty};

use crate::own::Own;
use crate::registers::{held, keep};
use crate::roots::Roots;
use crate::stop::Stop;
use std::sync::Wait;
use tide_server::{Beds, Layout, Op, Refusal, Reply, Shapes, Val};

/// The class of which a call found nothing free, where that is what refused it.
fn full_class(reply: Reply) -> Option<u8>
    ensures full { IfSome result (λ class. reply ≡ Refused (Full class)) }
    ensures other { result ≡ None → is_full_reply reply ≡ false }
{
    match reply {
        Reply::Refused(Refusal::Full { class }) => Some(class),
        _ => None,
    }
}

/// A thread of a runtime: a member with its registers, its root stack among them.
#[derive(Drop)]
pub struct Thread<'b, 'h> {
    pub(crate) own: Option<Own<'h>>,
    pub(crate) beds: &'b Beds<'h, Shapes>,
    /// The first register of the root stack: the one before it is for operands.
    pub(crate) base: u8,
    /// The first register above the root stack.
    pub(crate) top: u8,
    /// The first register above the places of the root stack.
    pub(crate) end: u8,
    /// What each register holds, as replies told it.
    pub(crate) told: [Val; 250],
    ghost here: { is_some own ≡ true },
    ghost some: { 0 < base },
    ghost from_base: { base ≤ top },
    ghost within: { top ≤ end },
}

impl<'b, 'h> Thread<'b, 'h> {
    ghost use Rattle.tide.specs.Hosts.{stack_in};
    ghost use Rattle.tide.specs.Registers.{told_at};
    ghost use Rattle.tide.specs.Threads.{HasCalled, HasDone, HasTold, calling_of, number_of, stack_of};

    /// A thread that has made no call yet, with these registers for its root stack.
    pub(crate) fn new(own: Own<'h>, beds: &'b Beds<'h, Shapes>, roots: Roots) -> Thread<'b, 'h>
        ensures own { result.own ≡ Some own.entry }
        ensures stack { stack_of result ≡ stack_in roots }
        ensures told { result.told ≡ replicate 250 Empty }
    {
        Thread {
            own: Some(own),
            beds,
            base: roots.base,
            top: roots.base,
            end: roots.end,
            told: [Val::Empty; 250],
        }
    }

    /// Which of the runtime's threads it is, counted from 0.
    pub fn number(&self) -> usize
        ensures { result ≡ number_of self.now.own }
    {
        match &self.own {
            Some(own) => own.number(),
            None => unreachable!(),
        }
    }

    /// How large its heap is.
    pub fn layout(&self) -> &Layout
        ensures { IfSome self.now.own (λ own. result.now ≡ own.standing.now.heap.key.layout) }
    {
        match &self.own {
            Some(own) => own.layout(),
            None => unreachable!(),
        }
    }

    /// What a register holds, as replies told it. It makes no entry and waits for nobody. A register that there isn't
    /// holds nothing.
    pub fn peek(&self, register: u8) -> Val
        ensures { result ≡ told_at self.now.told register }
    {
        held(&self.told, register)
    }

    /// Makes a call. First it comes to a freeze where one is wanted. A refusal is a reply, but for want of room, and that
    /// only once it was tried again in a later part, behind a full cycle. What doesn't fit this heap isn't made.
    pub fn call<R: Wait>(&mut self, rt: &R, op: Op) -> Result<Reply, Stop>
        ensures called { HasCalled (calling_of self.old) (calling_of self.new) op result }
        ensures stack { stack_of self.new ≡ stack_of self.old }
    {
        let Some(own) = &mut self.own else {
            unreachable!()
        };
        if !own.takes(op) {
            return Err(Stop::Unfit);
        }
        let reply = own.ask(rt, op);
        if let Some(class) = full_class(reply) {
            return Err(Stop::Full { class });
        }
        keep(&mut self.told, op, reply);
        Ok(reply)
    }

    /// Makes a call that is to be done: any refusal of it is an error.
    pub fn done<R: Wait>(&mut self, rt: &R, op: Op) -> Result<(), Stop>
        ensures done { HasDone (calling_of self.old) (calling_of self.new) op result }
        ensures stack { stack_of self.new ≡ stack_of self.old }
    {
        match self.call(rt, op)? {
            Reply::Refused(refusal) => Err(Stop::Refused(refusal)),
            _ => Ok(()),
        }
    }

    /// Makes a call that is to tell a value.
    pub(crate) fn seen<R: Wait>(&mut self, rt: &R, op: Op) -> Result<Val, Stop>
        ensures seen { HasTold (calling_of self.old) (calling_of self.new) op result }
        ensures stack { stack_of self.new ≡ stack_of self.old }
    {
        match self.call(rt, op)? {
            Reply::Born(cell) => Ok(Val::Cell(cell)),
            Reply::Seen(val) => Ok(val),
            Reply::Refused(refusal) => Err(Stop::Refused(refusal)),
            _ => Ok(Val::Empty),
        }
    }
}
