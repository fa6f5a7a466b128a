//! What both mutators of a `Pair` do, one after the other. Each call leaves them as the next one wants them.
ghost use Rattle.std.specs.Prelude.{◌≡◌, ◌⊎◌, ℕ, true, false, OnOk};
ghost use Rattle.check_table.specs.callers.Working.{all_calls, put_calls};
ghost use Rattle.check_table.specs.Pairs.{no_calls, HasOpened, HasStarted, HaveBegun, HaveCalled, HaveStopped};
ghost use Rattle.check_table.specs.Pairs.{IsClosedOf, SameCalls};
ghost use Rattle.tide_heap.specs.Parties.{In, IsParty};
ghost use Rattle.tide_table.specs.Standing.{HasOpenedNext, RunsWith};
ghost use Rattle.tide_table.specs.VisitsTold.{VisitsAreIn};

use crate::callers::{begin_part, leave, stop_part};
use crate::pair::Pair;
use crate::working::{LoadedWords, look, put};
use tide_heap::{Books, Report};
use tide_shape::Shapes;
use tide_table::{Closed, Collector, Heap, HeapShapes, NotOpened, Numbers};

/// Freezes the part, runs a whole cycle, and opens the next one. Where memory was short the part is frozen, and the two
/// calls that may follow do the rest.
fn go_on<S: HeapShapes>(
    heap: &Heap<S>,
    collector: &mut Collector,
    books: &mut Books,
) -> Result<(), NotOpened>
    requires own { collector.old.seat.table_id ≡ heap.now.table.shared.table_id }
    requires part { RunsWith heap.now.key.layout books.old collector.old.seat.me.0 }
    requires all { (i : ℕ) → IsParty heap.now.key.layout i →
        In i collector.old.seat.me.0.notes ⊎ In i collector.old.seat.me.0.gone }
    requires visits { VisitsAreIn heap.now.key.layout collector.old.seat.me.0 }
    ensures own { collector.new.seat.table_id ≡ collector.old.seat.table_id }
    ensures next { OnOk result (HasOpenedNext heap.now.key.layout books.new collector.old.seat.me.0
        collector.new.seat.me.0) }
{
    match collector.next_part(heap, books, true) {
        Err(NotOpened::Memory) => {}
        answer => return answer,
    }
    let Ok(run) = collector.collect(heap, books, true) else {
        return Err(NotOpened::Memory);
    };
    let Ok(()) = collector.open(heap, run) else {
        return Err(NotOpened::PeriodsSpent);
    };
    Ok(())
}

impl Pair {
    /// Opens the first part.
    pub fn open(&mut self, run: u32)
        requires started { HasStarted self.old }
        ensures heap { self.new.heap ≡ self.old.heap }
        ensures opened { HasOpened self.new }
        ensures calls { HaveCalled no_calls false self.new }
    {
        self.collector.open_first(&self.heap, run);
    }

    /// Both begin the open part. Answers its number, as each one's ticket tells it.
    pub fn begin(&mut self) -> [u32; 2]
        requires opened { HasOpened self.old }
        ensures heap { self.new.heap ≡ self.old.heap }
        ensures begun { HaveBegun self.new }
        ensures calls { SameCalls self.old self.new }
    {
        [
            begin_part(&self.heap, &mut self.collector, &mut self.one),
            begin_part(&self.heap, &mut self.collector, &mut self.other),
        ]
    }

    /// Both set a register, and put it into a strong and a weak handle.
    pub fn put(&mut self)
        requires begun { HaveBegun self.old }
        requires calls { HaveCalled no_calls false self.old }
        ensures heap { self.new.heap ≡ self.old.heap }
        ensures begun { HaveBegun self.new }
        ensures calls { HaveCalled put_calls false self.new }
    {
        put(&self.heap, &mut self.one);
        put(&self.heap, &mut self.other);
    }

    /// Both look at their own words, at handles, at a slot and at a claim.
    pub fn look(&mut self) -> [LoadedWords; 2]
        requires begun { HaveBegun self.old }
        ensures heap { self.new.heap ≡ self.old.heap }
        ensures begun { HaveBegun self.new }
        ensures calls { SameCalls self.old self.new }
    {
        [
            look(&self.heap, &mut self.one),
            look(&self.heap, &mut self.other),
        ]
    }

    /// Both retire.
    pub fn leave(&mut self)
        requires begun { HaveBegun self.old }
        requires calls { HaveCalled put_calls false self.old }
        ensures heap { self.new.heap ≡ self.old.heap }
        ensures begun { HaveBegun self.new }
        ensures calls { HaveCalled all_calls true self.new }
    {
        leave(&self.heap, &mut self.one);
        leave(&self.heap, &mut self.other);
    }

    /// Both stop, and hand their notes in. Answers what these tell.
    pub fn stop(&mut self) -> [Numbers; 2]
        requires begun { HaveBegun self.old }
        ensures heap { self.new.heap ≡ self.old.heap }
        ensures stopped { HaveStopped self.new }
        ensures calls { SameCalls self.old self.new }
    {
        [
            stop_part(&self.heap, &mut self.collector, &mut self.one),
            stop_part(&self.heap, &mut self.collector, &mut self.other),
        ]
    }

    /// Freezes the part, runs a whole cycle, and opens the next one.
    pub fn next(&mut self) -> Result<(), NotOpened>
        requires stopped { HaveStopped self.old }
        requires stay { self.old.one.seat.me.0.left ≡ false }
        ensures heap { self.new.heap ≡ self.old.heap }
        ensures opened { OnOk result (HasOpened self.new) }
        ensures calls { SameCalls self.old self.new }
    {
        go_on(&self.heap, &mut self.collector, &mut self.books)?;
        Ok(())
    }

    /// Freezes the last part, and closes the heap.
    pub fn close(self) -> (Closed<Shapes>, Report)
        requires stopped { HaveStopped self }
        requires left { self.one.seat.me.0.left ≡ true }
        ensures closed { IsClosedOf self.heap result.0 }
    {
        let Pair {
            heap,
            mut collector,
            books,
            ..
        } = self;
        let Books { report, .. } = books;
        collector.freeze(&heap);
        (collector.close(heap), report)
    }
}
