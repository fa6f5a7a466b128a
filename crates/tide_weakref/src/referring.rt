//! Weak references: they are made, asked what they lead to, and given up. It delivers nothing.
ghost use Rattle.std.specs.Prelude.{◌≡◌, ◌≢◌, ◌<◌, ◌==◌, filter, not, Contains, Err, IfOk, IfErr, ℕ};
ghost use Rattle.atomic_table.specs.Seated.{TableId};
ghost use Rattle.tide_model.specs.Layout.{Layout};
ghost use Rattle.tide_model.specs.Numbers.{put_at};
ghost use Rattle.tide_weakref.specs.Dereferenced.{IsDereferenced};
ghost use Rattle.tide_weakref.specs.Jobs.{KeepsJobs, OthersSpare};
ghost use Rattle.tide_weakref.specs.Referenced.{IsReferenced};
ghost use Rattle.tide_weakref.specs.Stepping.{held_in, refusal_where_full, refuses_no_cell};
ghost use Rattle.tide_weakref.specs.Uses.{AreAllUsed, IsFullWhere, IsReference, UsesOneMore, reference};
ghost use Rattle.tide_weakref.specs.declared.refused.WeakRefused.TheVariants.{KeptFull};
ghost use Rattle.tide_weakref.specs.Viewed.{jobs_of, seat_of, table_of, view_of};
ghost use Rattle.tide_weakref.specs.Worked.{HasWorked, IsReady};

use crate::realm::Realm;
use crate::refused::WeakRefused;
use crate::stepping::{aim, let_go, load, step};
use crate::weak::{Chosen, Role, Weak};
use tide_heap::Heap;
use tide_model::{Op, Refusal, Reply, Turnstile, Val};
use tide_shape::ShapeTable;

/// Whether a reply refuses a register that holds no cell.
fn refuses_no_cell(reply: Reply) -> bool
    ensures { result ≡ refuses_no_cell reply }
{
    matches!(reply, Reply::Refused(Refusal::NotCell { reg: _ }))
}

impl Realm {
    /// Why nothing is made of what a register holds, where each weak handle is in use.
    pub(crate) fn refuse<S: ShapeTable, T: Turnstile>(
        &mut self,
        heap: &Heap<S>,
        src: u8,
        turnstile: &T,
    ) -> WeakRefused
        requires ready { IsReady heap.now.table.shared.table_id heap.now.key.layout self.old }
        requires register { (src < heap.now.key.layout.registers) × (src ≢ (jobs_of self.old).scratch) }
        ensures worked { HasWorked heap.now.table.shared.table_id heap.now.key.layout (S.lists heap.now.key.shapes)
            self.old self.new }
        ensures keeps_jobs { KeepsJobs heap.now.key.layout (view_of self.new).who (jobs_of self.new)
            (view_of self.new).seen (view_of self.new).mine }
        ensures registers { held_in heap.now.key.layout (view_of self.new)
            ≡ held_in heap.now.key.layout (view_of self.old) }
        ensures jobs { jobs_of self.new ≡ jobs_of self.old }
        ensures why { result ≡ refusal_where_full src (held_in heap.now.key.layout (view_of self.old) src) }
    {
        let get = Op::Get {
            dst: self.scratch,
            src,
            slot: 0,
        };
        let reply = step(&mut self.mutator, heap, get, turnstile);
        if refuses_no_cell(reply) {
            return WeakRefused::NotCell { reg: src };
        }
        let_go(&mut self.mutator, heap, self.scratch, turnstile);
        WeakRefused::RefsFull
    }

    /// Makes a reference to the cell in a register, keeps that until the job ends, and answers the reference's number.
    pub fn make_ref<S: ShapeTable, T: Turnstile>(
        &mut self,
        heap: &Heap<S>,
        src: u8,
        turnstile: &T,
    ) -> Result<u32, WeakRefused>
        requires ready { IsReady heap.now.table.shared.table_id heap.now.key.layout self.old }
        requires register { (src < heap.now.key.layout.registers) × (src ≢ (jobs_of self.old).scratch) }
        ensures worked { HasWorked heap.now.table.shared.table_id heap.now.key.layout (S.lists heap.now.key.shapes)
            self.old self.new }
        ensures keeps_jobs { KeepsJobs heap.now.key.layout (view_of self.new).who (jobs_of self.new)
            (view_of self.new).seen (view_of self.new).mine }
        ensures registers { held_in heap.now.key.layout (view_of self.new)
            ≡ held_in heap.now.key.layout (view_of self.old) }
        ensures answers { OthersSpare (view_of self.old).who (jobs_of self.old) (view_of self.new).seen →
            IsReferenced src (held_in heap.now.key.layout (view_of self.old) src) (jobs_of self.old)
            (jobs_of self.new) result }
        ensures made { IfOk result (IsReference (jobs_of self.new)) }
        ensures uses { IfOk result (λ number. UsesOneMore (jobs_of self.old) (jobs_of self.new) number
            (reference number)) }
        ensures full { AreAllUsed (jobs_of self.old) →
            result ≡ Err (refusal_where_full src (held_in heap.now.key.layout (view_of self.old) src)) }
        ensures refs_full { IfErr result (IsFullWhere (jobs_of self.old)) }
        ensures refused { IfErr result (λ _. jobs_of self.new ≡ jobs_of self.old) }
    {
        let Some(at) = self.weaks.next() else {
            return Err(self.refuse(heap, src, turnstile));
        };
        prove!(heap.layout().weak() <= 65_535);
        let scratch = self.scratch;
        let handle = self.weaks.handles.first + at;
        let Some(target) = aim(&mut self.mutator, heap, scratch, handle, src, turnstile) else {
            let_go(&mut self.mutator, heap, scratch, turnstile);
            return Err(WeakRefused::NotCell { reg: src });
        };
        if !self.may_keep(target) {
            let_go(&mut self.mutator, heap, scratch, turnstile);
            return Err(WeakRefused::KeptFull);
        }
        self.weaks.add(Weak {
            at,
            target,
            role: Role::Reference,
        });
        self.keep(heap, target, turnstile);
        let_go(&mut self.mutator, heap, scratch, turnstile);
        Ok(u32::from(at))
    }

    /// Puts what a reference leads to into a register, and answers it: its target, which is kept until the job ends, or
    /// `Empty` where that is gone.
    pub fn deref<S: ShapeTable, T: Turnstile>(
        &mut self,
        heap: &Heap<S>,
        r: u32,
        dst: u8,
        turnstile: &T,
    ) -> Result<Val, WeakRefused>
        requires ready { IsReady heap.now.table.shared.table_id heap.now.key.layout self.old }
        requires made { IsReference (jobs_of self.old) r }
        requires register { (dst < heap.now.key.layout.registers) × (dst ≢ (jobs_of self.old).scratch) }
        ensures worked { HasWorked heap.now.table.shared.table_id heap.now.key.layout (S.lists heap.now.key.shapes)
            self.old self.new }
        ensures keeps_jobs { KeepsJobs heap.now.key.layout (view_of self.new).who (jobs_of self.new)
            (view_of self.new).seen (view_of self.new).mine }
        ensures holds { IfOk result (λ value. held_in heap.now.key.layout (view_of self.new)
            ≡ put_at (held_in heap.now.key.layout (view_of self.old)) dst value) }
        ensures answers { (target : ℕ) → Contains (jobs_of self.old).uses (reference r target) →
            OthersSpare (view_of self.old).who (jobs_of self.old) (view_of self.new).seen →
            IsDereferenced (view_of self.new).seen (jobs_of self.old) (reference r target) (jobs_of self.new) result }
        ensures refused { IfErr result (λ _. (jobs_of self.new ≡ jobs_of self.old)
            × (held_in heap.now.key.layout (view_of self.new) ≡ held_in heap.now.key.layout (view_of self.old))) }
        ensures why { IfErr result (λ why. why ≡ KeptFull) }
        ensures uses { (jobs_of self.new).uses ≡ (jobs_of self.old).uses }
    {
        prove!(heap.layout().weak() <= 65_535);
        let scratch = self.scratch;
        let at = r as u16;
        let handle = self.weaks.handles.first + at;
        let Some(cell) = load(&mut self.mutator, heap, scratch, handle, turnstile) else {
            step(&mut self.mutator, heap, Op::Drop { dst }, turnstile);
            let_go(&mut self.mutator, heap, scratch, turnstile);
            return Ok(Val::Empty);
        };
        if !self.may_keep(cell) {
            let_go(&mut self.mutator, heap, scratch, turnstile);
            return Err(WeakRefused::KeptFull);
        }
        self.keep(heap, cell, turnstile);
        step(
            &mut self.mutator,
            heap,
            Op::Move { dst, src: scratch },
            turnstile,
        );
        let_go(&mut self.mutator, heap, scratch, turnstile);
        Ok(Val::Cell(cell))
    }

    /// Gives a reference up: its weak handle is unused from then on.
    pub fn drop_ref(&mut self, r: u32)
        requires { IsReference (jobs_of self.old) r }
        ensures same { (table_of self.new ≡ table_of self.old) × (seat_of self.new ≡ seat_of self.old)
            × (view_of self.new ≡ view_of self.old) }
        ensures jobs { jobs_of self.new ≡ record (jobs_of self.old) {
          uses = filter (λ one. not (one.at == r)) (jobs_of self.old).uses;
        } }
        ensures ready { (id : TableId) → (layout : Layout) → IsReady id layout self.old → IsReady id layout self.new }
        ensures others { (other : ℕ) → other ≢ r → IsReference (jobs_of self.old) other →
            IsReference (jobs_of self.new) other }
    {
        self.weaks.give_up(Chosen::Number(r));
    }
}
