//! A thread's registers, cells and handles.
ghost use Rattle.std.specs.Prelude.{◌≡◌};

use crate::stop::{Src, Stop};
use crate::thread::Thread;
use std::sync::Wait;
use tide_server::{Op, Val};

impl<'b, 'h> Thread<'b, 'h> {
    ghost use Rattle.tide.specs.Threads.{HasBrought, HasDone, HasStored, HasTold, IsClassOf, calling_of};
    ghost use Rattle.tide.specs.Threads.{base_of, op_of, scratch_of, stack_of};
    ghost use Rattle.tide_server.specs.tide_model.declared.op.Op.TheVariants as op;

    /// The register for operands.
    pub(crate) fn scratch(&self) -> u8
        ensures { result ≡ scratch_of (base_of self.now) }
    {
        self.base - 1
    }

    /// Puts a value into a register.
    pub fn set<R: Wait>(&mut self, rt: &R, dst: u8, val: Src) -> Result<(), Stop>
        ensures done { HasDone (calling_of self.old) (calling_of self.new) (op_of dst val) result }
        ensures stack { stack_of self.new ≡ stack_of self.old }
    {
        match val {
            Src::Reg(src) => self.done(rt, Op::Move { dst, src }),
            Src::Int(n) => self.done(rt, Op::Set { dst, n }),
            Src::Empty => self.done(rt, Op::Drop { dst }),
        }
    }

    /// A register that holds this value: the one for operands, into which it is put, where the value names none. The
    /// next call may put something else there.
    pub fn register_of<R: Wait>(&mut self, rt: &R, val: Src) -> Result<u8, Stop>
        ensures brought { HasBrought (calling_of self.old) (calling_of self.new) (base_of self.old) val result }
        ensures stack { stack_of self.new ≡ stack_of self.old }
    {
        if let Src::Reg(register) = val {
            return Ok(register);
        }
        let at = self.scratch();
        self.set(rt, at, val)?;
        Ok(at)
    }

    /// Makes a cell of a class, from 0 to 3, with 2, 4, 8 or 16 empty slots. Answers it.
    pub fn new_cell<R: Wait>(&mut self, rt: &R, dst: u8, class: u8) -> Result<Val, Stop>
        ensures told { HasTold (calling_of self.old) (calling_of self.new) (op.Alloc dst class) result }
        ensures stack { stack_of self.new ≡ stack_of self.old }
    {
        self.seen(rt, Op::Alloc { dst, class })
    }

    /// Makes a table. Answers it.
    pub fn new_table<R: Wait>(&mut self, rt: &R, dst: u8) -> Result<Val, Stop>
        ensures told { HasTold (calling_of self.old) (calling_of self.new) (op.Table dst) result }
        ensures stack { stack_of self.new ≡ stack_of self.old }
    {
        self.seen(rt, Op::Table { dst })
    }

    /// The class of a cell by its id: 4 for a table. `None` for an id that no cell has.
    pub fn class_of(&self, cell: u32) -> Option<u8>
        ensures { IsClassOf self.now.own cell result }
    {
        let layout = self.layout();
        if cell < layout.cells() {
            Some(layout.class_of(cell))
        } else {
            None
        }
    }

    /// Reads a slot of the cell in `src`.
    pub fn get<R: Wait>(&mut self, rt: &R, dst: u8, src: u8, slot: u8) -> Result<Val, Stop>
        ensures told { HasTold (calling_of self.old) (calling_of self.new) (op.Get dst src slot) result }
        ensures stack { stack_of self.new ≡ stack_of self.old }
    {
        self.seen(rt, Op::Get { dst, src, slot })
    }

    /// Stores a value into a slot of the cell in `src`.
    pub fn put<R: Wait>(&mut self, rt: &R, src: u8, slot: u8, val: Src) -> Result<(), Stop>
        ensures stored { HasStored (calling_of self.old) (calling_of self.new) (base_of self.old)
            (λ register. op.Put src slot register) val result }
        ensures stack { stack_of self.new ≡ stack_of self.old }
    {
        let val = self.register_of(rt, val)?;
        self.done(rt, Op::Put { src, slot, val })
    }

    /// Stores a value into a strong handle.
    pub fn set_strong<R: Wait>(&mut self, rt: &R, at: u16, val: Src) -> Result<(), Stop>
        ensures stored { HasStored (calling_of self.old) (calling_of self.new) (base_of self.old)
            (λ register. op.StrongSet at register) val result }
        ensures stack { stack_of self.new ≡ stack_of self.old }
    {
        let val = self.register_of(rt, val)?;
        self.done(rt, Op::StrongSet { at, val })
    }

    /// Reads a strong handle.
    pub fn get_strong<R: Wait>(&mut self, rt: &R, dst: u8, at: u16) -> Result<Val, Stop>
        ensures told { HasTold (calling_of self.old) (calling_of self.new) (op.StrongGet dst at) result }
        ensures stack { stack_of self.new ≡ stack_of self.old }
    {
        self.seen(rt, Op::StrongGet { dst, at })
    }

    /// Stores a value into a weak handle, which keeps no cell.
    pub fn set_weak<R: Wait>(&mut self, rt: &R, at: u16, val: Src) -> Result<(), Stop>
        ensures stored { HasStored (calling_of self.old) (calling_of self.new) (base_of self.old)
            (λ register. op.WeakSet at register) val result }
        ensures stack { stack_of self.new ≡ stack_of self.old }
    {
        let val = self.register_of(rt, val)?;
        self.done(rt, Op::WeakSet { at, val })
    }

    /// Reads a weak handle, which is empty once its cell was freed.
    pub fn get_weak<R: Wait>(&mut self, rt: &R, dst: u8, at: u16) -> Result<Val, Stop>
        ensures told { HasTold (calling_of self.old) (calling_of self.new) (op.WeakGet dst at) result }
        ensures stack { stack_of self.new ≡ stack_of self.old }
    {
        self.seen(rt, Op::WeakGet { dst, at })
    }
}
