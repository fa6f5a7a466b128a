//! What a job keeps: each cell that a reference led to, in a strong handle, until the job ends.
ghost use Rattle.std.specs.Prelude.{◌≡◌, ◌<◌, ◌≤◌, ◌+◌, [], ℕ, length, nat_lt, ◌||◌};
ghost use Rattle.tide_model.specs.History.{state_after};
ghost use Rattle.tide_model.specs.Numbers.{is_among};
ghost use Rattle.tide_model.specs.declared.val.Val.TheVariants.{Empty, Cell as IsCell};
ghost use Rattle.tide_mutator.specs.calls.Viewed as works;
ghost use Rattle.tide_weakref.specs.Calls.{IsRunning};
ghost use Rattle.tide_weakref.specs.Handles.{IsIn};
ghost use Rattle.tide_weakref.specs.Jobs.{HasKeptJobs, Jobs, OthersSpare};
ghost use Rattle.tide_weakref.specs.Setting.{IsKeptIn, NoHandle, SetsOnly};
ghost use Rattle.tide_weakref.specs.Stepping.{HasStepped, HoldsNow, IsBare, TellsTargets, held_in};
ghost use Rattle.tide_weakref.specs.Uses.{IsFullFor, keeping};
ghost use Rattle.tide_weakref.specs.Viewed.{jobs_of, view_of};
ghost use Rattle.tide_weakref.specs.Worked.{HasWorked, IsReady};

use crate::range::Range16;
use crate::realm::Realm;
use crate::stepping::step;
use tide_heap::Heap;
use tide_model::{Op, Turnstile};
use tide_mutator::Mutator;
use tide_shape::ShapeTable;

/// Empties strong handles, by way of a register, where that is empty.
fn empty<S: ShapeTable, T: Turnstile>(
    mutator: &mut Mutator,
    heap: &Heap<S>,
    scratch: u8,
    handles: Range16,
    turnstile: &T,
)
    requires running { IsRunning heap.now.table.shared.table_id heap.now.key.layout mutator.old }
    requires register { scratch < heap.now.key.layout.registers }
    requires within { handles.first + handles.count ≤ heap.now.key.layout.strong }
    ensures stepped { HasStepped heap.now.table.shared.table_id heap.now.key.layout (S.lists heap.now.key.shapes)
        mutator.old mutator.new }
    ensures registers { held_in heap.now.key.layout (works.view_of mutator.new)
        ≡ held_in heap.now.key.layout (works.view_of mutator.old) }
    ensures sets { SetsOnly (IsIn handles) NoHandle (works.view_of mutator.old) (works.view_of mutator.new) }
    ensures kept_jobs { (jobs : Jobs) → jobs.cells ≡ [] →
        HasKeptJobs heap.now.key.layout (works.view_of mutator.old) jobs →
        HasKeptJobs heap.now.key.layout (works.view_of mutator.new) jobs }
    ensures emptied { (jobs : Jobs) → jobs.strong.first ≡ handles.first → handles.count ≤ jobs.strong.count →
        OthersSpare (works.view_of mutator.old).who jobs (works.view_of mutator.new).seen →
        IsBare heap.now.key.layout (works.view_of mutator.old) scratch → (place : ℕ) → place < handles.count →
        (state_after heap.now.key.layout (works.view_of mutator.new).seen).strong (handles.first + place) ≡ Empty }
{
    prove!(heap.layout().strong() <= 65_535);
    for place in 0..handles.count {
        step(
            mutator,
            heap,
            Op::StrongSet {
                at: handles.first + place,
                val: scratch,
            },
            turnstile,
        );
    }
}

impl Realm {
    /// Whether a cell is kept, or can be.
    pub(crate) fn may_keep(&self, cell: u32) -> bool
        ensures { result ≡ (is_among (jobs_of self.now).cells cell
            || nat_lt (length (jobs_of self.now).cells) (jobs_of self.now).strong.count) }
    {
        self.kept.has(cell) || self.kept.has_room()
    }

    /// Keeps the cell that the scratch register holds.
    pub(crate) fn keep<S: ShapeTable, T: Turnstile>(
        &mut self,
        heap: &Heap<S>,
        cell: u32,
        turnstile: &T,
    )
        requires running { IsRunning heap.now.table.shared.table_id heap.now.key.layout self.old.mutator }
        requires holds { HoldsNow heap.now.key.layout (view_of self.old) (jobs_of self.old) }
        requires held { held_in heap.now.key.layout (view_of self.old) (jobs_of self.old).scratch ≡ IsCell cell }
        requires room { ¬ (IsFullFor (jobs_of self.old) cell) }
        ensures stepped { HasStepped heap.now.table.shared.table_id heap.now.key.layout (S.lists heap.now.key.shapes)
            self.old.mutator self.new.mutator }
        ensures jobs { jobs_of self.new ≡ keeping (jobs_of self.old) cell }
        ensures holds { HoldsNow heap.now.key.layout (view_of self.new) (jobs_of self.new) }
        ensures registers { held_in heap.now.key.layout (view_of self.new)
            ≡ held_in heap.now.key.layout (view_of self.old) }
        ensures targets { TellsTargets heap.now.key.layout (view_of self.old) (view_of self.new) }
        ensures sets { SetsOnly (IsKeptIn (jobs_of self.new)) NoHandle (view_of self.old) (view_of self.new) }
    {
        if self.kept.has(cell) {
            return;
        }
        prove!(heap.layout().strong() <= 65_535);
        let at = self.kept.next();
        let set = Op::StrongSet {
            at,
            val: self.scratch,
        };
        step(&mut self.mutator, heap, set, turnstile);
        self.kept.add(cell);
    }

    /// Ends the job: no cell is kept any more.
    pub fn end_job<S: ShapeTable, T: Turnstile>(&mut self, heap: &Heap<S>, turnstile: &T)
        requires ready { IsReady heap.now.table.shared.table_id heap.now.key.layout self.old }
        ensures worked { HasWorked heap.now.table.shared.table_id heap.now.key.layout (S.lists heap.now.key.shapes)
            self.old self.new }
        ensures registers { held_in heap.now.key.layout (view_of self.new)
            ≡ held_in heap.now.key.layout (view_of self.old) }
        ensures emptied { OthersSpare (view_of self.old).who (jobs_of self.old) (view_of self.new).seen →
            (place : ℕ) → place < length (jobs_of self.old).cells →
            (state_after heap.now.key.layout (view_of self.new).seen).strong ((jobs_of self.old).strong.first + place)
            ≡ Empty }
        ensures ended { jobs_of self.new ≡ record (jobs_of self.old) { cells = [] } }
    {
        let handles = Range16 {
            first: self.kept.handles.first,
            count: self.kept.count(),
        };
        empty(&mut self.mutator, heap, self.scratch, handles, turnstile);
        self.kept.clear();
    }
}
