//! `OnThreads`: what a run stands on, a heap with its mutators and visitors, which act on threads.
ghost use Rattle.std.specs.Prelude.{◌≡◌, ◌-◌, ◌^◌, ◌<◌, ◌+◌, ◌++◌, ◌∷◌, ◌⊎◌, ℕ, [], All, IfOk, OnErr, OnOk, Some, length, map, min, slice_get, true};
ghost use Rattle.std.specs.List.{list_all};
ghost use Rattle.atomic_table.specs.Seated.{TableId};
ghost use Rattle.crossbeam_utils.specs.Padded.{padded_value};
ghost use Rattle.crossbeam_utils.specs.declared.cache_padded.CachePadded.{CachePadded};
ghost use Rattle.tide_heap.specs.tide_freeze.Freezing.{HasFrozenWhole};
ghost use Rattle.tide_model.specs.Cycle.{live_count};
ghost use Rattle.tide_periods.specs.Asking.{scripts_of, IsAskable};
ghost use Rattle.tide_periods.specs.Part.{AreCursors, RanPartBy};
ghost use Rattle.tide_periods.specs.Periods.{RanFreeze};
ghost use Rattle.tide_periods.specs.Recorded.{IsSettled};
ghost use Rattle.tide_periods.specs.declared.cursor.ScriptCursor.{ScriptCursor};
ghost use Rattle.tide_report.specs.Ends.{TellsEnds};
ghost use Rattle.tide_retained.specs.Contents.{HasKeysOf};
ghost use Rattle.tide_retained.specs.Holding.{IsSnapshotOf};
ghost use Rattle.tide_sched.specs.Paces.{last_run};
ghost use Rattle.tide_shape.specs.Lists.{lists_of};
ghost use Rattle.tide_table.specs.Standing.{EntersTold};
ghost use Rattle.tide_table.specs.Started.{ArePasses};
ghost use Rattle.tide_threads.specs.Acting.{before_all, cursor_of, cursors_in, is_silent, races_in};
ghost use Rattle.tide_threads.specs.Fresh.{AreFresh};
ghost use Rattle.tide_threads.specs.OnThreads.{cursors_on, pace_on, recorded_in, setting_in, setting_left};
ghost use Rattle.tide_threads.specs.OnThreads.{MayEnterOn, MayOpenOn, Stands};
ghost use Rattle.tide_threads.specs.declared.participant.Participant.{Participant};

use crate::contents::snapshot_of;
use crate::part::run_whole_part;
use crate::participant::Participant;
use crate::worker::Worker;
use crossbeam_utils::CachePadded;
use std::alloc::Global;
use std::marker::Sync;
use std::thread::Threads;
use tide_heap::{Books, GreyList, Layout};
use tide_model::{Memory, Op, Turnstile};
use tide_periods::{Answered, Room, ScriptCursor, cursors_of};
use tide_report::Report;
use tide_sched::Pacing;
use tide_shape::Shapes;
use tide_snapshot::Snapshot;
use tide_table::{Closed, Collector, Heap, Pass, Start, count_live};

/// A heap on which mutators and visitors act on threads: the collector, a participant for each of them, and the books
/// of its freezes.
#[derive(Drop)]
pub struct OnThreads {
    pub(crate) heap: Heap<Shapes>,
    pub(crate) collector: Collector,
    participants: Vec<CachePadded<Participant>>,
    pub(crate) books: Books,
    /// Room for each mutator's calls, of which none is in it yet.
    calls: Vec<Vec<Answered>>,
}

/// A count, or the largest of 32 bits where it is larger.
fn capped(count: usize) -> u32 {
    u32::try_from(count).unwrap_or(u32::MAX)
}

/// An empty list with room for so many.
fn with_room<T>(alloc: Global, room: usize) -> Result<Vec<T>, Memory>
    ensures { IfOk result (λ list. list.items ≡ []) }
{
    Ok(Vec::with_capacity(alloc, room)?)
}

/// One more at the end of a list.
fn append<T: Drop>(list: &mut Vec<T>, item: T) -> Result<(), Memory>
    ensures { OnOk result (list.new.items ≡ list.old.items ++ item ∷ []) }
{
    list.push(item)?;
    Ok(())
}

/// A participant for each mutator's pass, with its cursor, in a list that is empty yet.
fn seat_mutators(
    participants: &mut Vec<CachePadded<Participant>>,
    passes: Vec<Pass>,
    cursors: Vec<ScriptCursor>,
) -> Result<(), Memory>
    requires none { participants.old.items ≡ [] }
    requires as_many { length cursors.items ≡ length passes.items }
    requires passes { (id : TableId) × ArePasses id 0 passes.items }
    requires numbers { (who : ℕ) (cursor : ScriptCursor) →
        slice_get cursors.items who ≡ Some cursor → cursor.who ≡ who }
    ensures cursors { OnOk result (cursors_in participants.new.items ≡ cursors.items) }
    ensures one_each { OnOk result (length participants.new.items ≡ length passes.items) }
    ensures fresh { OnOk result ((id : TableId) (cells : ℕ) → ArePasses id 0 passes.items →
        AreFresh id (length passes.items) cells participants.new.items) }
{
    let mut rest = passes.into_iter();
    for cursor in cursors {
        let Some(pass) = rest.next() else {
            unreachable!()
        };
        let participant = Participant::of_mutator(pass, cursor);
        append(participants, CachePadded::new(participant))?;
    }
    Ok(())
}

/// One more participant for each visitor's pass, with a stack for so many cells.
fn seat_visitors(
    alloc: Global,
    participants: &mut Vec<CachePadded<Participant>>,
    passes: Vec<Pass>,
    cells: u32,
) -> Result<(), Memory>
    requires passes { (id : TableId) × ArePasses id 16 passes.items }
    ensures cursors { OnOk result (cursors_in participants.new.items ≡ cursors_in participants.old.items) }
    ensures one_each { OnOk result (length participants.new.items ≡ length participants.old.items + length passes.items) }
    ensures fresh { OnOk result ((id : TableId) → ArePasses id 16 passes.items →
        AreFresh id (length participants.old.items) cells participants.old.items →
        AreFresh id (length participants.old.items) cells participants.new.items) }
{
    for pass in passes {
        let stack = GreyList::without_notes(alloc, cells)?;
        let participant = Participant::of_visitor(pass, stack);
        append(participants, CachePadded::new(participant))?;
    }
    Ok(())
}

/// A participant for each mutator, with its cursor, and then one for each visitor, with a stack for so many cells.
fn participants_of(
    alloc: Global,
    mutators: Vec<Pass>,
    cursors: Vec<ScriptCursor>,
    visitors: Vec<Pass>,
    cells: u32,
) -> Result<Vec<CachePadded<Participant>>, Memory>
    requires as_many { length cursors.items ≡ length mutators.items }
    requires passes { (id : TableId) × ArePasses id 0 mutators.items × ArePasses id 16 visitors.items }
    requires numbers { (who : ℕ) (cursor : ScriptCursor) →
        slice_get cursors.items who ≡ Some cursor → cursor.who ≡ who }
    requires few { length mutators.items + length visitors.items < 2 ^ 32 }
    ensures cursors { IfOk result (λ made. cursors_in made.items ≡ cursors.items) }
    ensures one_each { IfOk result (λ made. length made.items ≡ length mutators.items + length visitors.items) }
    ensures fresh { IfOk result (λ made. (id : TableId) → ArePasses id 0 mutators.items →
        ArePasses id 16 visitors.items → AreFresh id (length mutators.items) cells made.items) }
{
    let mut participants = with_room(alloc, cursors.len() + visitors.len())?;
    seat_mutators(&mut participants, mutators, cursors)?;
    seat_visitors(alloc, &mut participants, visitors, cells)?;
    Ok(participants)
}

/// Puts the calls of who acted at the end, if it is a mutator.
fn append_calls(calls: &mut Vec<Vec<Answered>>, worker: Worker) -> Result<(), Memory>
    ensures { OnOk result (map (λ own. own.items) calls.new.items ≡ map (λ own. own.items) calls.old.items
        ++ map (λ cursor. cursor.calls.items) (before_all (cursor_of worker) [])) }
{
    match worker.into_cursor() {
        Some(cursor) => append(calls, cursor.into_calls()),
        None => Ok(()),
    }
}

/// Each mutator's calls, in a list that is empty yet.
fn calls_of_each(
    list: Vec<Vec<Answered>>,
    participants: Vec<CachePadded<Participant>>,
) -> Result<Vec<Vec<Answered>>, Memory>
    requires { list.items ≡ [] }
    ensures { IfOk result (λ calls. map (λ own. own.items) calls.items
        ≡ map (λ cursor. cursor.calls.items) (cursors_in participants.items)) }
{
    let mut calls = list;
    for padded in participants {
        let participant = padded.into_inner();
        append_calls(&mut calls, participant.into_worker())?;
    }
    Ok(calls)
}

/// Whether a participant makes no call any more.
fn is_silent(padded: &CachePadded<Participant>) -> bool
    ensures { result ≡ is_silent (padded_value padded.now).worker }
{
    padded.worker.is_silent()
}

/// Whether each mutator among participants has retired.
fn have_retired(participants: &[CachePadded<Participant>]) -> bool
    ensures { result ≡ list_all
        (λ (padded : CachePadded Participant). is_silent (padded_value padded).worker) participants.now }
{
    participants.iter().all(is_silent)
}

/// How many races all participants met, as far as 64 bits count them.
fn deferred_by(participants: &[CachePadded<Participant>]) -> u64
    ensures { result ≡ min (races_in participants.now) (2 ^ 64 - 1) }
{
    let mut deferred = 0u64;
    for padded in participants {
        deferred = deferred.saturating_add(padded.worker.deferred());
    }
    deferred
}

impl OnThreads {
    /// An empty heap on which nothing was run yet, with a mutator for each script, the visitors of the layout, and this
    /// room for what a run leaves. Its cycles are paced so.
    pub fn new(
        alloc: Global,
        layout: Layout,
        shapes: Shapes,
        scripts: Vec<Vec<Op>>,
        room: Room,
        pacing: Pacing,
    ) -> Result<OnThreads, Memory>
        requires mutators { length scripts.items ≡ layout.mutators }
        requires askable { All (All (IsAskable layout)) (map (λ ops. ops.items) scripts.items) }
        ensures setting { IfOk result (λ new. setting_in new ≡ record { layout = layout; shapes = lists_of shapes }) }
        ensures nothing { IfOk result (λ new. (recorded_in new).history ≡ []) }
        ensures stands { IfOk result Stands }
        ensures cursors { IfOk result (λ new. AreCursors (recorded_in new) (cursors_on new)) }
        ensures scripts { IfOk result (λ new. scripts_of (cursors_on new) ≡ map (λ ops. ops.items) scripts.items) }
        ensures pacing { IfOk result (λ new. new.books.pacing ≡ pacing) }
        ensures opens { IfOk result (λ new. (run : ℕ) → MayOpenOn new run) }
    {
        prove!(layout.mutators() <= 16);
        let calls = with_room(alloc, scripts.len())?;
        let cursors = cursors_of(alloc, scripts)?;
        let freed = capped(room.births).saturating_add(2 * layout.cells());
        let books = Books::new(alloc, &layout, pacing, capped(room.ends), freed)?;
        let cells = layout.cells();
        let Start {
            heap,
            collector,
            mutators,
            visitors,
        } = Start::new(alloc, layout, shapes)?;
        let participants = participants_of(alloc, mutators, cursors, visitors, cells)?;
        Ok(OnThreads {
            heap,
            collector,
            participants,
            books,
            calls,
        })
    }

    /// Opens a part in which each mutator has `run` calls, and each visitor as many visits if a cycle marks, and has it
    /// played on so many threads at most. Answers whether a mutator stopped before its share was over.
    pub(crate) fn run_part<R: Threads + Sync, T: Turnstile>(
        &mut self,
        rt: &R,
        threads: usize,
        turnstile: &T,
        run: u32,
    ) -> Result<bool, Memory>
        requires settled { IsSettled (recorded_in self.old) }
        requires stands { Stands self.old }
        requires cursors { AreCursors (recorded_in self.old) (cursors_on self.old) }
        requires few { (recorded_in self.old).parts < 2 ^ 32 - 1 }
        requires opens { MayOpenOn self.old run }
        ensures ran { IfOk result (RanPartBy (recorded_in self.old) (recorded_in self.new) run
            (cursors_on self.old) (cursors_on self.new)) }
        ensures stands { OnOk result (Stands self.new) }
        ensures visits { OnOk result (MayEnterOn self.new) }
        ensures pacing { OnOk result (self.new.books.pacing ≡ self.old.books.pacing) }
    {
        let ended = run_whole_part(
            rt,
            threads,
            &self.heap,
            turnstile,
            &mut self.collector,
            self.participants.as_mut_slice(),
            &mut self.books,
            run,
        )?;
        Ok(ended)
    }

    /// Whether each mutator has retired.
    pub(crate) fn are_all_retired(&self) -> bool
        ensures { result ≡ list_all (λ cursor. cursor.retired) (cursors_on self.now) }
    {
        have_retired(self.participants.as_slice())
    }

    /// Freezes after a part, and does what the schedule asks for. Answers how many calls each mutator has in the next
    /// part. Without memory for the report nothing was done.
    pub(crate) fn freeze(&mut self, is_forced: bool) -> Result<u32, Memory>
        requires settled { IsSettled (recorded_in self.old) }
        requires stands { Stands self.old }
        requires opened { 0 < (recorded_in self.old).parts }
        requires room { (recorded_in self.old).cycles < 2 ^ 60 }
        requires visits { MayEnterOn self.old }
        ensures ran { IfOk result (RanFreeze (recorded_in self.old) (recorded_in self.new) (pace_on self.old) is_forced) }
        ensures stands { Stands self.new }
        ensures pacing { self.new.books.pacing ≡ self.old.books.pacing }
        ensures cursors { cursors_on self.new ≡ cursors_on self.old }
        ensures opens { IfOk result (MayOpenOn self.new) }
        ensures froze { OnOk result (HasFrozenWhole (pace_on self.old) (setting_in self.old).layout
            (last_run (recorded_in self.old).history) (recorded_in self.old).history (recorded_in self.new).history
            is_forced) }
        ensures told { OnOk result (EntersTold (setting_in self.old).layout self.old.collector.seat.me.0
            (recorded_in self.new).history) }
        ensures same { setting_in self.new ≡ setting_in self.old }
        ensures untouched { OnErr result (recorded_in self.new ≡ recorded_in self.old) }
    {
        let next = self
            .collector
            .collect(&self.heap, &mut self.books, is_forced)?;
        Ok(next)
    }

    /// How many cells live.
    pub(crate) fn live(&mut self) -> u32
        requires stands { Stands self.old }
        ensures live { result ≡ live_count (setting_in self.old).layout (recorded_in self.old).state }
        ensures same { recorded_in self.new ≡ recorded_in self.old }
        ensures cursors { cursors_on self.new ≡ cursors_on self.old }
        ensures stands { Stands self.new }
    {
        count_live(&mut self.collector, &self.heap)
    }

    /// A snapshot of what the heap holds.
    pub(crate) fn snapshot(&mut self, alloc: Global) -> Result<Snapshot, Memory>
        requires stands { Stands self.old }
        ensures snapshot { IfOk result (IsSnapshotOf (setting_in self.old).layout (recorded_in self.old).state) }
        ensures keys { IfOk result (HasKeysOf (setting_in self.old).shapes) }
        ensures same { recorded_in self.new ≡ recorded_in self.old }
        ensures cursors { cursors_on self.new ≡ cursors_on self.old }
        ensures stands { Stands self.new }
    {
        snapshot_of(alloc, &self.heap, &mut self.collector)
    }

    /// How many races the visitors met, as far as 64 bits count them.
    pub(crate) fn deferred(&self) -> u64
        requires stands { Stands self.now }
        ensures sum { result ≡ min (races_in self.now.participants.items) (2 ^ 64 - 1) }
        ensures none { (setting_in self.now).layout.visitors ≡ 0 → result ≡ 0 }
    {
        deferred_by(self.participants.as_slice())
    }

    /// Closes a heap whose mutators have all retired: its history, the report of the cycles that ended, and each
    /// mutator's calls.
    pub(crate) fn finish(self) -> Result<(Closed<Shapes>, Report, Vec<Vec<Answered>>), Memory>
        requires stands { Stands self }
        requires retired { list_all (λ cursor. cursor.retired) (cursors_on self) ≡ true }
        ensures history { IfOk result (λ left. left.0.seat.me.0.seen ≡ (recorded_in self).history) }
        ensures heap { IfOk result (λ left. setting_left left.0 ≡ setting_in self) }
        ensures report { IfOk result (λ left. TellsEnds (setting_in self).layout (recorded_in self).history left.1) }
        ensures calls { IfOk result (λ left.
            map (λ own. own.items) left.2.items ≡ map (λ cursor. cursor.calls.items) (cursors_on self)) }
    {
        let OnThreads {
            heap,
            collector,
            participants,
            books,
            calls,
        } = self;
        let Books { report, .. } = books;
        let calls = calls_of_each(calls, participants)?;
        Ok((collector.close(heap), report, calls))
    }
}
