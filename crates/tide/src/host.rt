//! `Host`: a heap that was opened for a runtime, and its run.
ghost use Rattle.std.specs.Prelude.{◌≡◌, Bool, Err, IfOk, IsOkUnless, List, None, Some, false, length};
ghost use Rattle.tide.specs.Counted.{Counts};
ghost use Rattle.tide.specs.Hosts.{AreReady};
ghost use Rattle.tide.specs.Sizes.{AreWithin, layout_of, pace_of_sizes, refusal_of};
ghost use Rattle.tide.specs.Told.{TellsRun};
ghost use Rattle.tide.specs.declared.sizes.Refused.{Refused};
ghost use Rattle.tide.specs.declared.sizes.Refused.TheVariants as refused;
ghost use Rattle.tide_server.specs.Keepers.{view_of};
ghost use Rattle.tide_server.specs.Turned.{IsFinished};
ghost use Rattle.tide_server.specs.tide_model.Periods.{IsLegal, open_count};
ghost use Rattle.tide_server.specs.tide_posts.Schedule.{IsLegalWhere, have_stops};
ghost use Rattle.tide_server.specs.tide_report.Ends.{ends_in};
ghost use Rattle.tide_server.specs.tide_sched.Paces.{pace_of};
ghost use Rattle.tide_server.specs.tide_shape.Lists.{lists_of};
ghost use Rattle.tide_server.specs.tide_shape.Shapes.{shapes_of_paths};

use crate::jobs::{answers_of, jobs_for};
use crate::keeping::Kept;
use crate::playing::run_all;
use crate::roots::Roots;
use crate::shapes::shapes_for;
use crate::sizes::{Refused, Sizes};
use crate::stats::{Stats, Tally};
use crate::thread::Thread;
use std::alloc::Global;
use std::marker::Sync;
use std::sync::Wait;
use std::thread::Threads;
use tide_server::{
    Beds, Closed, Keeper, Memory, Opened, Paths, Report, Shapes, Standing, Start, open,
};

/// A heap that was opened for a runtime.
#[derive(Drop)]
pub struct Host {
    opened: Opened<Shapes>,
    roots: Roots,
}

/// What a run leaves.
#[derive(Drop)]
pub struct Ran<T> {
    /// What each thread answered, in the order of their numbers.
    pub answers: Vec<T>,
    pub stats: Stats,
    /// Some thread stopped early in a part: it rested, or came early to a freeze.
    pub has_stopped: bool,
    /// The heap, which is closed, with its history.
    pub closed: Closed<Shapes>,
}

/// Opens a heap of these sizes with these shapes.
fn open_with(alloc: Global, sizes: &Sizes, shapes: Shapes) -> Result<Opened<Shapes>, Memory>
    requires within { AreWithin sizes.now }
    ensures ready { IfOk result (λ made. AreReady made.standing.heap.key.layout
        made.standing.heap.table.shared.table_id made.standing.hands.shared.table_id made.keeper
        made.members.items made.helpers.items) }
    ensures layout { IfOk result (λ made. made.standing.heap.key.layout ≡ layout_of sizes.now) }
    ensures shapes { IfOk result (λ made. made.standing.heap.key.shapes ≡ shapes) }
    ensures pace { IfOk result (λ made. pace_of made.keeper.books.pacing ≡ pace_of_sizes sizes.now) }
{
    let start = Start::new(alloc, sizes.layout(), shapes)?;
    let opened = open(alloc, start, sizes.pacing())?;
    Ok(opened)
}

/// The numbers of a run whose last turn answered that it is over.
fn sum_up(standing: &Standing<Shapes>, keeper: &mut Keeper, tally: Tally) -> Stats
    requires finished { IsFinished standing.now.heap.key.layout (lists_of standing.now.heap.key.shapes)
        standing.now.heap.table.shared.table_id keeper.old }
    requires counted { Counts tally (open_count (view_of keeper.old).seen)
        (ends_in standing.now.heap.key.layout (view_of keeper.old).seen) }
    ensures finished { IsFinished standing.now.heap.key.layout (lists_of standing.now.heap.key.shapes)
        standing.now.heap.table.shared.table_id keeper.new }
    ensures same { (view_of keeper.new ≡ view_of keeper.old) × (keeper.new.books ≡ keeper.old.books)
        × (keeper.new.stopped ≡ keeper.old.stopped) }
    ensures told { TellsRun standing.now.heap.key.layout (view_of keeper.old).seen result }
{
    let live = keeper.live_cells(standing);
    Stats::gather(standing.layout(), tally, keeper.sums(), live)
}

impl Host {
    ghost use Rattle.tide.specs.Hosts.{AreAnswers, HostStands, beginning_of, stack_in, stack_of_sizes};
    ghost use Rattle.tide.specs.Watched.{WasTold};

    /// Opens a heap of these sizes, which has no cell in it. A cell gets its keys in the order of one of the paths.
    pub fn open(alloc: Global, sizes: Sizes, paths: &Paths) -> Result<Host, Refused>
        ensures refused { (why : Refused) → (refusal_of sizes paths.now ≡ Some why) → result ≡ Err why }
        ensures opened { refusal_of sizes paths.now ≡ None → IsOkUnless result refused.Memory }
        ensures stands { IfOk result HostStands }
        ensures layout { IfOk result (λ host. host.opened.standing.heap.key.layout ≡ layout_of sizes) }
        ensures shapes { IfOk result (λ host. lists_of host.opened.standing.heap.key.shapes
            ≡ shapes_of_paths paths.now) }
        ensures pace { IfOk result (λ host. pace_of host.opened.keeper.books.pacing ≡ pace_of_sizes sizes) }
        ensures stack { IfOk result (λ host. stack_in host.roots ≡ stack_of_sizes sizes) }
    {
        let shapes = shapes_for(alloc, &sizes, paths)?;
        let opened = open_with(alloc, &sizes, shapes)?;
        let base = sizes.registers + 1;
        let roots = Roots {
            base,
            end: base + sizes.stack,
        };
        Ok(Host { opened, roots })
    }

    /// Runs `f` on a thread for each member, with helpers beside them and the keeper here, until all have returned. It
    /// may wait for ever. Memory is wanted before the first call or not at all.
    pub fn run<R: Threads + Wait + Sync, T: Send + Drop, F: Fn(&mut Thread<'_, '_>) -> T + Sync>(
        self,
        rt: &R,
        alloc: Global,
        f: &F,
    ) -> Result<Ran<T>, Memory>
        requires stands { HostStands self }
        requires calls { F.IsAlwaysCallable f.now }
        ensures heap { IfOk result (λ ran. ran.closed.key ≡ self.opened.standing.heap.key) }
        ensures where_early { IfOk result (λ ran. (stops : List (List Bool))
            × (ran.has_stopped ≡ have_stops self.opened.standing.heap.key.layout stops)
            × IsLegalWhere (pace_of self.opened.keeper.books.pacing) self.opened.standing.heap.key.layout
            (lists_of self.opened.standing.heap.key.shapes) stops ran.closed.seat.me.0.seen) }
        ensures legal { IfOk result (λ ran. ran.has_stopped ≡ false → IsLegal
            (pace_of self.opened.keeper.books.pacing) self.opened.standing.heap.key.layout
            (lists_of self.opened.standing.heap.key.shapes) ran.closed.seat.me.0.seen) }
        ensures told { IfOk result (λ ran. TellsRun self.opened.standing.heap.key.layout ran.closed.seat.me.0.seen
            ran.stats) }
        ensures all { IfOk result (λ ran. length ran.answers.items
            ≡ self.opened.standing.heap.key.layout.mutators) }
        ensures answers { IfOk result (λ ran. AreAnswers F.Fn f.now (beginning_of
            self.opened.standing.heap.key.layout self.opened.standing.heap.table.shared.table_id self.roots) 0
            ran.answers.items) }
    {
        let (ran, _) = self.run_and_watch(rt, alloc, f, |_: &Report| {})?;
        Ok(ran)
    }

    /// A run as `run` makes it, with somebody who watches: behind each turn the keeper calls `watch` with a report of
    /// the cycles that ended in it, of which there may be none. Answers who watched too, as the last call left it. The
    /// next part is open by then, and `watch` holds up the freeze behind that. It makes no call of the heap.
    pub fn run_and_watch<
        R: Threads + Wait + Sync,
        T: Send + Drop,
        F: Fn(&mut Thread<'_, '_>) -> T + Sync,
        W: FnMut(&Report) + Send + Drop,
    >(self, rt: &R, alloc: Global, f: &F, watch: W) -> Result<(Ran<T>, W), Memory>
        requires stands { HostStands self }
        requires calls { F.IsAlwaysCallable f.now }
        requires watches { W.IsAlwaysCallable watch }
        ensures heap { IfOk result (λ out. out.0.closed.key ≡ self.opened.standing.heap.key) }
        ensures where_early { IfOk result (λ out. (stops : List (List Bool))
            × (out.0.has_stopped ≡ have_stops self.opened.standing.heap.key.layout stops)
            × IsLegalWhere (pace_of self.opened.keeper.books.pacing) self.opened.standing.heap.key.layout
            (lists_of self.opened.standing.heap.key.shapes) stops out.0.closed.seat.me.0.seen) }
        ensures legal { IfOk result (λ out. out.0.has_stopped ≡ false → IsLegal
            (pace_of self.opened.keeper.books.pacing) self.opened.standing.heap.key.layout
            (lists_of self.opened.standing.heap.key.shapes) out.0.closed.seat.me.0.seen) }
        ensures told { IfOk result (λ out. TellsRun self.opened.standing.heap.key.layout out.0.closed.seat.me.0.seen
            out.0.stats) }
        ensures all { IfOk result (λ out. length out.0.answers.items
            ≡ self.opened.standing.heap.key.layout.mutators) }
        ensures answers { IfOk result (λ out. AreAnswers F.Fn f.now (beginning_of
            self.opened.standing.heap.key.layout self.opened.standing.heap.table.shared.table_id self.roots) 0
            out.0.answers.items) }
        ensures watched { IfOk result (λ out. WasTold W.FnMut self.opened.standing.heap.key.layout
            out.0.closed.seat.me.0.seen watch out.1) }
    {
        let Host { opened, roots } = self;
        let Opened {
            standing,
            keeper,
            members,
            helpers,
        } = opened;
        // no turn wants more room than this
        let report = Report::new(alloc, 2, 2 * standing.layout().cells())?;
        let beds = Beds::new(alloc, members.len())?;
        let answers = Vec::with_capacity(alloc, members.len())?;
        let jobs = jobs_for(alloc, members)?;
        let (kept, played) = run_all(
            rt, &standing, &beds, roots, keeper, report, jobs, helpers, f, watch,
        );
        drop(beds);
        let Kept {
            mut keeper,
            tally,
            watch,
        } = kept;
        let ran = Ran {
            answers: answers_of(answers, played),
            stats: sum_up(&standing, &mut keeper, tally),
            has_stopped: keeper.has_stopped(),
            closed: keeper.finish(standing),
        };
        Ok((ran, watch))
    }
}
