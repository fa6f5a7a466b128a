//! A mutator's steps on its own words, and on handles.
ghost use Rattle.std.specs.Prelude.{◌≡◌, ◌<◌, ◌%◌, ◌^◌, Some};
ghost use Rattle.tide_core.specs.machine.Kind.{LoadCall, LoadRegister, LoadStrong, LoadWeak, Retire, StoreCall, StoreRegister, StoreStrong, StoreWeak};
ghost use Rattle.tide_model.specs.declared.op.Op.TheVariants as op;
ghost use Rattle.tide_heap.specs.steps.Calls.{CanStep, HasStepped, HasStored};

use crate::heap::Heap;
use crate::shapes::HeapShapes;
use crate::steps::acting::act_as;
use crate::steps::step::Step;
use crate::steps::{Made, Pass};
use std::marker::Brand;
use tide_core::{Act, Region};
use tide_model::Op;

impl Pass {
    /// Loads one of its registers.
    pub fn load_register<S: HeapShapes>(&mut self, heap: &Heap<S>, register: u8) -> u64
        requires mutator { self.old.seat.me.0.who < heap.now.key.layout.mutators }
        requires within { register < heap.now.key.layout.registers }
        requires may { CanStep S.lists heap.now self.old (LoadRegister register) }
        ensures step { HasStepped S.lists heap.now (LoadRegister register) self.old result self.new }
    {
        let at = heap.register_place(self.numbers.who, register);
        self.make_step(heap, at, Act::Load, Step::LoadRegister(register))
    }

    /// Stores one of its registers: the word that a call owes, or a call that fills it.
    pub fn store_register<S: HeapShapes>(
        &mut self,
        heap: &Heap<S>,
        register: u8,
        word: u64,
        made: Made,
    )
        requires mutator { self.old.seat.me.0.who < heap.now.key.layout.mutators }
        requires within { register < heap.now.key.layout.registers }
        requires may { CanStep S.lists heap.now self.old (StoreRegister register word made) }
        ensures step { HasStored S.lists heap.now (StoreRegister register word made) self.old self.new }
    {
        let at = heap.register_place(self.numbers.who, register);
        let step = Step::StoreRegister(register, word, made);
        self.make_step(heap, at, Act::Store(word), step);
    }

    /// Loads its call word, which tells how many calls it made, as far as it was stored.
    pub fn load_call<S: HeapShapes>(&mut self, heap: &Heap<S>) -> u64
        requires mutator { self.old.seat.me.0.who < heap.now.key.layout.mutators }
        requires may { CanStep S.lists heap.now self.old LoadCall }
        ensures step { HasStepped S.lists heap.now LoadCall self.old result self.new }
        ensures told { result ≡ self.old.seat.me.0.calls % 2 ^ 64 }
    {
        let at = heap.place(Region::Call, self.numbers.who);
        self.make_step(heap, at, Act::Load, Step::LoadCall)
    }

    /// Stores its call word, which tells how many calls it made, with a call that its own words answer.
    pub fn store_call<S: HeapShapes>(&mut self, heap: &Heap<S>, word: u64, made: Made)
        requires mutator { self.old.seat.me.0.who < heap.now.key.layout.mutators }
        requires may { CanStep S.lists heap.now self.old (StoreCall word made) }
        ensures step { HasStored S.lists heap.now (StoreCall word made) self.old self.new }
    {
        let at = heap.place(Region::Call, self.numbers.who);
        self.make_step(heap, at, Act::Store(word), Step::StoreCall(word, made));
    }

    /// Loads a strong handle, and sees it by a call, or doesn't.
    pub fn load_strong<S: HeapShapes>(&mut self, heap: &Heap<S>, handle: u32, made: Made) -> u64
        requires within { handle < heap.now.key.layout.strong }
        requires may { CanStep S.lists heap.now self.old (LoadStrong handle made) }
        ensures step { HasStepped S.lists heap.now (LoadStrong handle made) self.old result self.new }
    {
        let at = heap.place(Region::Strong, handle);
        self.make_step(heap, at, Act::Load, Step::LoadStrong(handle, made))
    }

    /// Stores a strong handle by a call.
    pub fn store_strong<S: HeapShapes>(
        &mut self,
        heap: &Heap<S>,
        handle: u32,
        word: u64,
        made: Made,
    )
        requires within { handle < heap.now.key.layout.strong }
        requires may { CanStep S.lists heap.now self.old (StoreStrong handle word made) }
        ensures step { HasStored S.lists heap.now (StoreStrong handle word made) self.old self.new }
    {
        let at = heap.place(Region::Strong, handle);
        let step = Step::StoreStrong(handle, word, made);
        self.make_step(heap, at, Act::Store(word), step);
    }

    /// Loads a weak handle, and sees it by a call, or doesn't.
    pub fn load_weak<S: HeapShapes>(&mut self, heap: &Heap<S>, handle: u32, made: Made) -> u64
        requires within { handle < heap.now.key.layout.weak }
        requires may { CanStep S.lists heap.now self.old (LoadWeak handle made) }
        ensures step { HasStepped S.lists heap.now (LoadWeak handle made) self.old result self.new }
    {
        let at = heap.place(Region::Weak, handle);
        self.make_step(heap, at, Act::Load, Step::LoadWeak(handle, made))
    }

    /// Stores a weak handle by a call.
    pub fn store_weak<S: HeapShapes>(&mut self, heap: &Heap<S>, handle: u32, word: u64, made: Made)
        requires within { handle < heap.now.key.layout.weak }
        requires may { CanStep S.lists heap.now self.old (StoreWeak handle word made) }
        ensures step { HasStored S.lists heap.now (StoreWeak handle word made) self.old self.new }
    {
        let at = heap.place(Region::Weak, handle);
        let step = Step::StoreWeak(handle, word, made);
        self.make_step(heap, at, Act::Store(word), step);
    }

    /// Stores 0 to its Active word: it makes no call any more.
    pub fn retire<S: HeapShapes>(&mut self, heap: &Heap<S>)
        requires mutator { self.old.seat.me.0.who < heap.now.key.layout.mutators }
        requires may { CanStep S.lists heap.now self.old (Retire (Some op.Retire)) }
        ensures step { HasStored S.lists heap.now (Retire (Some op.Retire)) self.old self.new }
    {
        let at = heap.place(Region::Active, self.numbers.who);
        let step = Step::Retire(Some(Op::Retire));
        act_as::<S, Brand>(&mut self.seat, heap, at, Act::Store(0), step);
        self.numbers.left = true;
    }
}
