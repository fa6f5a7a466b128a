//! The parts of an engine: it starts, and between two parts a cycle runs.
ghost use Rattle.tide.specs.Parts.{IsIdleBefore};
ghost use Rattle.embed_weakref.specs.Engine.{TakesPart};
ghost use Rattle.embed_weakref.specs.References.{KeepsReferences, Works};
ghost use Rattle.std.specs.Prelude.{◌≡◌, ◌<◌, ◌≤◌, false, IfOk, IfSome};
ghost use Rattle.tide.specs.tide_core.machine.Frozen.{newcomer};
ghost use Rattle.tide.specs.tide_model.Layout.{Layout as LayoutIs};
ghost use Rattle.tide.specs.tide_weakref.Jobs.{HasKeptJobs};
ghost use Rattle.tide.specs.tide_weakref.Viewed.{jobs_of, table_of, view_of};

use crate::engine::Engine;
use std::alloc::Global;
use tide::{
    Books, Collector, Heap, Layout, Memory, Mutator, Pacing, Pass, Paths, Range16, Realm, Shapes,
    Start,
};

/// How many calls the mutator has in the first part.
const FIRST_RUN: u32 = 50;

/// The realm, of the first mutator, begins the open part.
pub fn begin(heap: &Heap<Shapes>, collector: &mut Collector, realm: &mut Realm)
    requires own { collector.old.seat.table_id ≡ heap.now.table.shared.table_id }
    requires of_heap { table_of realm.old ≡ heap.now.table.shared.table_id }
    requires mutator { 0 < heap.now.key.layout.mutators }
    requires running { collector.old.seat.me.0.frozen ≡ false }
    requires idle { IsIdleBefore 0 collector.old.seat.me.0.period (view_of realm.old) }
    requires kept { HasKeptJobs heap.now.key.layout (view_of realm.old) (jobs_of realm.old) }
    requires scratch { (jobs_of realm.old).scratch ≡ 3 }
    ensures same { (collector.new.seat.table_id ≡ collector.old.seat.table_id)
        × (collector.new.seat.me.0 ≡ collector.old.seat.me.0) }
    ensures takes_part { TakesPart heap.now.table.shared.table_id heap.now.key.layout
        collector.new.seat.me.0.period realm.new }
    ensures jobs { jobs_of realm.new ≡ jobs_of realm.old }
    ensures fresh { (view_of realm.new).born ≡ 0 }
{
    let ticket = collector.ticket(heap);
    realm.begin(heap, ticket);
}

/// The layout of a heap for a realm: a block of cells with two slots, and so many mutators, two at most, with four
/// registers each.
pub fn heap_layout(mutators: u8) -> Layout
    requires few { (1 ≤ mutators) × (mutators ≤ 2) }
    ensures parties { (result.mutators ≡ mutators) × (result.visitors ≡ 0) }
    ensures own { (result.registers ≡ 4) × (result.strong ≡ 2) × (result.weak ≡ 4) }
{
    Layout::new([1, 0, 0, 0, 1], [1, 0, 0, 0, 0], 4, 2, 4, mutators, 0)
}

/// A realm of a newcomer, with the last of four registers, and with handles from the first one on.
pub fn new_realm(alloc: Global, pass: Pass, kept: u16, refs: u16) -> Result<Realm, Memory>
    requires newcomer { pass.seat.me.0 ≡ newcomer 0 }
    requires few { (kept ≤ 2) × (refs ≤ 4) }
    ensures table { IfOk result (λ realm. table_of realm ≡ pass.seat.table_id) }
    ensures view { IfOk result (λ realm. view_of realm ≡ newcomer 0) }
    ensures scratch { IfOk result (λ realm. (jobs_of realm).scratch ≡ 3) }
    ensures kept { IfOk result (λ realm. (layout : LayoutIs) →
        (layout.registers ≡ 4) × (layout.strong ≡ 2) × (layout.weak ≡ 4) →
        HasKeptJobs layout (view_of realm) (jobs_of realm)) }
{
    let kept = Range16 {
        first: 0,
        count: kept,
    };
    let refs = Range16 {
        first: 0,
        count: refs,
    };
    let realm = Realm::new(alloc, Mutator::new(pass), 3, kept, refs)?;
    Ok(realm)
}

/// A heap without cells, whose realm takes part in its first part.
fn start_over(
    alloc: Global,
    shapes: Shapes,
    kept: u16,
    refs: u16,
    pacing: Pacing,
) -> Result<Option<Engine>, Memory>
    requires few { (kept ≤ 2) × (refs ≤ 4) }
    ensures works { IfOk result (λ o. IfSome o Works) }
    ensures fresh { IfOk result (λ o. IfSome o (λ engine. (view_of engine.realm).born ≡ 0)) }
{
    let layout = heap_layout(1);
    let books = Books::new(alloc, &layout, pacing, 8, 512)?;
    let Start {
        heap,
        mut collector,
        mut mutators,
        visitors: _,
    } = Start::new(alloc, layout, shapes)?;
    let Some(pass) = mutators.pop() else {
        return Ok(None);
    };
    let mut realm = new_realm(alloc, pass, kept, refs)?;
    collector.open_first(&heap, FIRST_RUN);
    begin(&heap, &mut collector, &mut realm);
    Ok(Some(Engine {
        heap,
        collector,
        realm,
        books,
    }))
}

impl Engine {
    /// A heap without cells, whose realm has the last of four registers, and so many strong and weak handles, two and
    /// four at most. A cycle begins by itself once as many cells were born as `trigger` says, and never where that is
    /// 0.
    pub fn start(alloc: Global, kept: u16, refs: u16, trigger: u32) -> Option<Engine>
        requires few { (kept ≤ 2) × (refs ≤ 4) }
        ensures works { IfSome result Works }
        ensures fresh { IfSome result (λ engine. (view_of engine.realm).born ≡ 0) }
    {
        let pacing = Pacing {
            calls: 100,
            visits: 100,
            headroom: 1000,
            trigger,
        };
        let Ok(shapes) = Shapes::new(alloc, &Paths::new(alloc)) else {
            return None;
        };
        let Ok(started) = start_over(alloc, shapes, kept, refs, pacing) else {
            return None;
        };
        started
    }

    /// Ends the part, has a full cycle where it must, else what the schedule asks for, and begins the next part. `None`
    /// where memory is wanting, or no more part can be opened.
    pub fn next_part(self, is_forced: bool) -> Option<Engine>
        requires works { Works self }
        ensures works { IfSome result Works }
        ensures keeps { IfSome result (KeepsReferences self) }
        ensures fresh { IfSome result (λ engine. (view_of engine.realm).born ≡ 0) }
    {
        let Engine {
            heap,
            mut collector,
            mut realm,
            mut books,
        } = self;
        let note = realm.stop(&heap);
        collector.take(&heap, note);
        let Ok(()) = collector.next_part(&heap, &mut books, is_forced) else {
            return None;
        };
        begin(&heap, &mut collector, &mut realm);
        Some(Engine {
            heap,
            collector,
            realm,
            books,
        })
    }

    /// How many cycles ended.
    pub fn ended(&self) -> usize {
        self.books.report.cycles().len()
    }
}
