//! Registrations for finalization: they are made, taken back, and delivered once their target is gone.
ghost use Rattle.std.specs.Prelude.{◌≡◌, ◌≢◌, ◌<◌, ◌≤◌, ◌+◌, filter, not, Err, IfErr, OnOk, count_by, ℕ, MatchOption};
ghost use Rattle.atomic_table.specs.Seated.{TableId};
ghost use Rattle.tide_model.specs.Layout.{Layout};
ghost use Rattle.tide_mutator.specs.calls.Viewed as works;
ghost use Rattle.tide_weakref.specs.Calls.{IsRunning};
ghost use Rattle.tide_weakref.specs.Delivered.{AllHeldCells, IsDelivered, IsFirstGone};
ghost use Rattle.tide_weakref.specs.Jobs.{Jobs, KeepsJobs, OthersSpare};
ghost use Rattle.tide_weakref.specs.Registered.{IsRegistered};
ghost use Rattle.tide_weakref.specs.Setting.{SetsNone};
ghost use Rattle.tide_weakref.specs.Stepping.{HasHeldJobs, HasStepped, SameBut, held_in, refusal_where_full};
ghost use Rattle.tide_weakref.specs.Roles.{has_token};
ghost use Rattle.tide_weakref.specs.Uses.{AreAllUsed, GoesOn, IsFullWhere, UsesOneMore, registration};
ghost use Rattle.tide_weakref.specs.Viewed.{jobs_of, seat_of, table_of, view_of};
ghost use Rattle.tide_weakref.specs.Worked.{HasWorked, IsReady};
ghost use Rattle.tide_weakref.specs.declared.weak.Weak.{Weak as WeakIs};

use crate::realm::Realm;
use crate::refused::WeakRefused;
use crate::stepping::{aim, let_go, load};
use crate::weak::{Chosen, Role, Weak, held_of};
use crate::weaks::Weaks;
use tide_heap::Heap;
use tide_model::Turnstile;
use tide_mutator::Mutator;
use tide_shape::ShapeTable;

/// The place of the first registration whose handle, read now, holds no cell.
fn first_gone<S: ShapeTable, T: Turnstile>(
    mutator: &mut Mutator,
    heap: &Heap<S>,
    scratch: u8,
    weaks: &Weaks,
    turnstile: &T,
) -> Option<usize>
    requires running { IsRunning heap.now.table.shared.table_id heap.now.key.layout mutator.old }
    requires register { scratch < heap.now.key.layout.registers }
    requires within { weaks.now.handles.first + weaks.now.handles.count ≤ heap.now.key.layout.weak }
    ensures stepped { HasStepped heap.now.table.shared.table_id heap.now.key.layout (S.lists heap.now.key.shapes)
        mutator.old mutator.new }
    ensures stands { (jobs : Jobs) → HasHeldJobs heap.now.key.layout (works.view_of mutator.old) jobs →
        HasHeldJobs heap.now.key.layout (works.view_of mutator.new) jobs }
    ensures others { SameBut heap.now.key.layout scratch (works.view_of mutator.old) (works.view_of mutator.new) }
    ensures sets { SetsNone (works.view_of mutator.old) (works.view_of mutator.new) }
    ensures found { (jobs : Jobs) → jobs.weak ≡ weaks.now.handles → jobs.uses ≡ weaks.now.uses.items →
        HasHeldJobs heap.now.key.layout (works.view_of mutator.old) jobs → MatchOption result
        (AllHeldCells (works.view_of mutator.old) (works.view_of mutator.new) jobs jobs.uses)
        (λ place. (one : WeakIs) × (held : ℕ) × (token : ℕ)
        × IsFirstGone (works.view_of mutator.old) (works.view_of mutator.new) jobs place one held token) }
{
    prove!(heap.layout().weak() <= 65_535);
    for place in 0..weaks.count() {
        let one = weaks.used(place);
        if held_of(one.role).is_none() {
            continue;
        }
        let handle = weaks.handles.first + one.at;
        let Some(_) = load(mutator, heap, scratch, handle, turnstile) else {
            return Some(place);
        };
    }
    None
}

impl Realm {
    /// Registers the cell in a register: once it is gone, `held` is delivered, unless all with the same token are taken
    /// back before.
    pub fn register<S: ShapeTable, T: Turnstile>(
        &mut self,
        heap: &Heap<S>,
        src: u8,
        held: u32,
        token: u32,
        turnstile: &T,
    ) -> Result<(), WeakRefused>
        requires ready { IsReady heap.now.table.shared.table_id heap.now.key.layout self.old }
        requires register { (src < heap.now.key.layout.registers) × (src ≢ (jobs_of self.old).scratch) }
        ensures worked { HasWorked heap.now.table.shared.table_id heap.now.key.layout (S.lists heap.now.key.shapes)
            self.old self.new }
        ensures keeps_jobs { KeepsJobs heap.now.key.layout (view_of self.new).who (jobs_of self.new)
            (view_of self.new).seen (view_of self.new).mine }
        ensures registers { held_in heap.now.key.layout (view_of self.new)
            ≡ held_in heap.now.key.layout (view_of self.old) }
        ensures answers { OthersSpare (view_of self.old).who (jobs_of self.old) (view_of self.new).seen →
            IsRegistered src (held_in heap.now.key.layout (view_of self.old) src) held token (jobs_of self.old)
            (jobs_of self.new) result }
        ensures uses { OnOk result ((at : ℕ) × UsesOneMore (jobs_of self.old) (jobs_of self.new) at
            (λ target. registration at target held token)) }
        ensures full { AreAllUsed (jobs_of self.old) →
            result ≡ Err (refusal_where_full src (held_in heap.now.key.layout (view_of self.old) src)) }
        ensures refs_full { IfErr result (IsFullWhere (jobs_of self.old)) }
        ensures refused { IfErr result (λ _. jobs_of self.new ≡ jobs_of self.old) }
    {
        let Some(at) = self.weaks.next() else {
            return Err(self.refuse(heap, src, turnstile));
        };
        prove!(heap.layout().weak() <= 65_535);
        let scratch = self.scratch;
        let handle = self.weaks.handles.first + at;
        let Some(target) = aim(&mut self.mutator, heap, scratch, handle, src, turnstile) else {
            let_go(&mut self.mutator, heap, scratch, turnstile);
            return Err(WeakRefused::NotCell { reg: src });
        };
        self.weaks.add(Weak {
            at,
            target,
            role: Role::Registration { held, token },
        });
        let_go(&mut self.mutator, heap, scratch, turnstile);
        Ok(())
    }

    /// Takes back each registration with this token, and answers how many there were.
    pub fn unregister(&mut self, token: u32) -> u32
        ensures same { (table_of self.new ≡ table_of self.old) × (seat_of self.new ≡ seat_of self.old)
            × (view_of self.new ≡ view_of self.old) }
        ensures jobs { jobs_of self.new ≡ record (jobs_of self.old) {
          uses = filter (λ one. not (has_token token one)) (jobs_of self.old).uses;
        } }
        ensures ready { (id : TableId) → (layout : Layout) → IsReady id layout self.old → IsReady id layout self.new }
        ensures goes_on { GoesOn (jobs_of self.old) (jobs_of self.new) }
        ensures count { result ≡ count_by (has_token token) (jobs_of self.old).uses }
    {
        self.weaks.give_up(Chosen::Token(token))
    }

    /// Takes out the first registration whose target is gone, and answers its held value.
    pub fn deliver<S: ShapeTable, T: Turnstile>(
        &mut self,
        heap: &Heap<S>,
        turnstile: &T,
    ) -> Option<u32>
        requires ready { IsReady heap.now.table.shared.table_id heap.now.key.layout self.old }
        ensures worked { HasWorked heap.now.table.shared.table_id heap.now.key.layout (S.lists heap.now.key.shapes)
            self.old self.new }
        ensures keeps_jobs { KeepsJobs heap.now.key.layout (view_of self.new).who (jobs_of self.new)
            (view_of self.new).seen (view_of self.new).mine }
        ensures registers { held_in heap.now.key.layout (view_of self.new)
            ≡ held_in heap.now.key.layout (view_of self.old) }
        ensures answers { IsDelivered (view_of self.old) (view_of self.new) (jobs_of self.old) (jobs_of self.new)
            result }
    {
        let found = first_gone(
            &mut self.mutator,
            heap,
            self.scratch,
            &self.weaks,
            turnstile,
        );
        let_go(&mut self.mutator, heap, self.scratch, turnstile);
        let Some(place) = found else {
            return None;
        };
        let one = self.weaks.remove(place);
        held_of(one.role)
    }
}
