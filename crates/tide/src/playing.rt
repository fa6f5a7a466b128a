//! Members and helpers, each on a thread of its own, beside the keeper.
ghost use Rattle.std.specs.Prelude.{◌≡◌, ◌+◌, All, [], length};
ghost use Rattle.std.specs.List.{AllZip};
ghost use Rattle.tide.specs.Counted.{HasCounted};
ghost use Rattle.tide.specs.Watched.{HasWatched};
ghost use Rattle.tide.specs.Hosts.{HasActed, HasAnswered, HasMember, HaveActed, IsNewMember, beginning_of};
ghost use Rattle.tide_server.specs.Helpers.{IsHelperOf};
ghost use Rattle.tide_server.specs.Keepers.{KeeperStands, view_of};
ghost use Rattle.tide_server.specs.Turned.{IsFinished};
ghost use Rattle.tide_server.specs.tide_model.Periods.{open_count};
ghost use Rattle.tide_server.specs.tide_mutator.calls.Viewed as calls;
ghost use Rattle.tide_server.specs.tide_shape.Lists.{lists_of};

use crate::jobs::{Job, act_on};
use crate::keeping::{Kept, help, keep};
use crate::own::Own;
use crate::roots::Roots;
use crate::thread::Thread;
use std::marker::Sync;
use std::sync::Wait;
use std::thread::{Threads, for_each_mut, join};
use tide_server::{Beds, Helper, Keeper, Member, Report, Shapes, Standing};

/// Runs `f` on a thread of a runtime, and leaves.
fn play<'h, R: Wait, T: Drop, F: Fn(&mut Thread<'_, '_>) -> T>(
    rt: &R,
    standing: &'h Standing<Shapes>,
    beds: &Beds<'h, Shapes>,
    roots: Roots,
    member: Member,
    f: &F,
) -> T
    requires new { IsNewMember standing.now.heap.key.layout standing.now.heap.table.shared.table_id
        standing.now.hands.shared.table_id member }
    requires calls { F.IsAlwaysCallable f.now }
    ensures { HasAnswered F.Fn f.now (beginning_of standing.now.heap.key.layout
        standing.now.heap.table.shared.table_id roots) (calls.view_of member.mutator).who result }
{
    let mut thread = Thread::new(Own::new(standing, member), beds, roots);
    let answer = f(&mut thread);
    thread.leave(rt);
    answer
}

/// The members act, each on a thread of its own.
fn act_each<R: Threads + Sync, T: Send + Drop, P: Fn(Member) -> T + Sync>(
    rt: &R,
    jobs: &mut [Job<T>],
    act: &P,
)
    requires may { All (HasMember (P.pre act.now)) jobs.old }
    ensures acted { HaveActed (P.post act.now) jobs.old jobs.new }
    ensures all { length jobs.new ≡ length jobs.old }
{
    let count = jobs.len();
    if count > 0 {
        for_each_mut(
            rt,
            jobs,
            count,
            &|_, job|
                requires { HasMember (P.pre act.now) job.old }
                ensures { HasActed (P.post act.entry.now) job.old job.new }
            { act_on(job, act) },
        );
    }
}

/// The members act, and their answers are left in their jobs.
fn act_all<R: Threads + Sync, T: Send + Drop, P: Fn(Member) -> T + Sync>(
    rt: &R,
    mut jobs: Vec<Job<T>>,
    act: &P,
) -> Vec<Job<T>>
    requires may { All (HasMember (P.pre act.now)) jobs.items }
    ensures { AllZip (HasActed (P.post act.now)) jobs.items result.items }
{
    act_each(rt, jobs.as_mut_slice(), act);
    jobs
}

/// The helpers mark, each on a thread of its own.
fn help_all<R: Threads + Wait + Sync>(rt: &R, standing: &Standing<Shapes>, mut helpers: Vec<Helper>)
    requires of { All (IsHelperOf standing.now.heap.key.layout standing.now.heap.table.shared.table_id
        standing.now.hands.shared.table_id) helpers.items }
{
    let count = helpers.len();
    if count > 0 {
        for_each_mut(
            rt,
            helpers.as_mut_slice(),
            count,
            &|_, helper|
                requires { IsHelperOf standing.now.heap.key.layout standing.now.heap.table.shared.table_id
                    standing.now.hands.shared.table_id helper.old }
            { help(rt, standing, helper) },
        );
    }
}

/// The members and the helpers play side by side.
fn play_others<R: Threads + Wait + Sync, T: Send + Drop, P: Fn(Member) -> T + Sync>(
    rt: &R,
    standing: &Standing<Shapes>,
    act: &P,
    jobs: Vec<Job<T>>,
    helpers: Vec<Helper>,
) -> Vec<Job<T>>
    requires may { All (HasMember (P.pre act.now)) jobs.items }
    requires of { All (IsHelperOf standing.now.heap.key.layout standing.now.heap.table.shared.table_id
        standing.now.hands.shared.table_id) helpers.items }
    ensures { AllZip (HasActed (P.post act.now)) jobs.items result.items }
{
    let (played, ()) = join(
        rt,
        || -> Vec<Job<T>>
            requires { All (HasMember (P.pre act.now)) jobs.items }
            ensures { AllZip (HasActed (P.post act.entry.now)) jobs.items result.items }
        { act_all(rt, jobs, act) },
        || -> ()
            requires { All (IsHelperOf standing.now.heap.key.layout standing.now.heap.table.shared.table_id
                standing.now.hands.shared.table_id) helpers.items }
        { help_all(rt, standing, helpers) },
    );
    played
}

/// The keeper turns beside all members and helpers. What a member does, and how the keeper attends to beds, are closures
/// of types of their own: of what a closure answers that holds beds, whose type names a lifetime, no clause tells.
fn play_all<
    R: Threads + Wait + Sync,
    T: Send + Drop,
    A: Fn(&Keeper) + Sync,
    P: Fn(Member) -> T + Sync,
    W: FnMut(&Report) + Send + Drop,
>(
    rt: &R,
    standing: &Standing<Shapes>,
    attend: &A,
    act: &P,
    watch: W,
    keeper: Keeper,
    report: Report,
    jobs: Vec<Job<T>>,
    helpers: Vec<Helper>,
) -> (Kept<W>, Vec<Job<T>>)
    requires rounds { A.IsAlwaysCallable attend.now }
    requires watches { W.IsAlwaysCallable watch }
    requires stands { KeeperStands standing.now.heap.key.layout standing.now.heap.table.shared.table_id
        standing.now.hands.shared.table_id keeper }
    requires may { All (HasMember (P.pre act.now)) jobs.items }
    requires of { All (IsHelperOf standing.now.heap.key.layout standing.now.heap.table.shared.table_id
        standing.now.hands.shared.table_id) helpers.items }
    requires empty { report.cycles ≡ [] }
    ensures finished { IsFinished standing.now.heap.key.layout (lists_of standing.now.heap.key.shapes)
        standing.now.heap.table.shared.table_id result.0.keeper }
    ensures pacing { result.0.keeper.books.pacing ≡ keeper.books.pacing }
    ensures counted { HasCounted standing.now.heap.key.layout (view_of keeper).start (view_of result.0.keeper).seen
        (view_of keeper).period (open_count (view_of result.0.keeper).seen + 1) result.0.tally }
    ensures watched { HasWatched W.FnMut standing.now.heap.key.layout (view_of keeper).start
        (view_of result.0.keeper).seen (view_of keeper).period (open_count (view_of result.0.keeper).seen + 1) watch
        result.0.watch }
    ensures acted { AllZip (HasActed (P.post act.now)) jobs.items result.1.items }
{
    join(
        rt,
        || -> Kept<W>
            requires { A.IsAlwaysCallable attend.now × W.IsAlwaysCallable watch
                × KeeperStands standing.now.heap.key.layout standing.now.heap.table.shared.table_id
                standing.now.hands.shared.table_id keeper
                × (report.cycles ≡ []) }
            ensures finished { IsFinished standing.entry.now.heap.key.layout
                (lists_of standing.entry.now.heap.key.shapes) standing.entry.now.heap.table.shared.table_id
                result.keeper }
            ensures pacing { result.keeper.books.pacing ≡ keeper.books.pacing }
            ensures counted { HasCounted standing.entry.now.heap.key.layout (view_of keeper).start
                (view_of result.keeper).seen (view_of keeper).period
                (open_count (view_of result.keeper).seen + 1) result.tally }
            ensures watched { HasWatched W.FnMut standing.entry.now.heap.key.layout (view_of keeper).start
                (view_of result.keeper).seen (view_of keeper).period
                (open_count (view_of result.keeper).seen + 1) watch result.watch }
        { keep(rt, standing, attend, watch, keeper, report) },
        || -> Vec<Job<T>>
            requires { All (HasMember (P.pre act.now)) jobs.items
                × All (IsHelperOf standing.now.heap.key.layout standing.now.heap.table.shared.table_id
                standing.now.hands.shared.table_id) helpers.items }
            ensures { AllZip (HasActed (P.post act.entry.now)) jobs.items result.items }
        { play_others(rt, standing, act, jobs, helpers) },
    )
}

/// Runs `f` on a thread for each member, with the helpers beside them and the keeper here, until all members have left.
pub(crate) fn run_all<
    'h,
    R: Threads + Wait + Sync,
    T: Send + Drop,
    F: Fn(&mut Thread<'_, '_>) -> T + Sync,
    W: FnMut(&Report) + Send + Drop,
>(
    rt: &R,
    standing: &'h Standing<Shapes>,
    beds: &Beds<'h, Shapes>,
    roots: Roots,
    keeper: Keeper,
    report: Report,
    jobs: Vec<Job<T>>,
    helpers: Vec<Helper>,
    f: &F,
    watch: W,
) -> (Kept<W>, Vec<Job<T>>)
    requires stands { KeeperStands standing.now.heap.key.layout standing.now.heap.table.shared.table_id
        standing.now.hands.shared.table_id keeper }
    requires may { All (HasMember (IsNewMember standing.now.heap.key.layout standing.now.heap.table.shared.table_id
        standing.now.hands.shared.table_id)) jobs.items }
    requires of { All (IsHelperOf standing.now.heap.key.layout standing.now.heap.table.shared.table_id
        standing.now.hands.shared.table_id) helpers.items }
    requires empty { report.cycles ≡ [] }
    requires calls { F.IsAlwaysCallable f.now }
    requires watches { W.IsAlwaysCallable watch }
    ensures finished { IsFinished standing.now.heap.key.layout (lists_of standing.now.heap.key.shapes)
        standing.now.heap.table.shared.table_id result.0.keeper }
    ensures pacing { result.0.keeper.books.pacing ≡ keeper.books.pacing }
    ensures counted { HasCounted standing.now.heap.key.layout (view_of keeper).start (view_of result.0.keeper).seen
        (view_of keeper).period (open_count (view_of result.0.keeper).seen + 1) result.0.tally }
    ensures watched { HasWatched W.FnMut standing.now.heap.key.layout (view_of keeper).start
        (view_of result.0.keeper).seen (view_of keeper).period (open_count (view_of result.0.keeper).seen + 1) watch
        result.0.watch }
    ensures acted { AllZip (HasActed (λ member. HasAnswered F.Fn f.now (beginning_of standing.now.heap.key.layout
        standing.now.heap.table.shared.table_id roots) (calls.view_of member.mutator).who)) jobs.items
        result.1.items }
{
    let attend = |keeper: &Keeper| keeper.attend(rt, standing, beds);
    let act = |member: Member| -> T
        requires { IsNewMember standing.now.heap.key.layout standing.now.heap.table.shared.table_id
            standing.now.hands.shared.table_id member × F.IsAlwaysCallable f.now }
        ensures { HasAnswered F.Fn f.entry.now (beginning_of standing.entry.now.heap.key.layout
            standing.entry.now.heap.table.shared.table_id roots) (calls.view_of member.mutator).who result }
    { play(rt, standing, beds, roots, member, f) };
    play_all(
        rt, standing, &attend, &act, watch, keeper, report, jobs, helpers,
    )
}
