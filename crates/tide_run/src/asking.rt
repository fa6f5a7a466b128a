//! From the words of a command line to a run: the workload that they ask for, and the store that runs it.
ghost use Rattle.std.specs.Prelude.{◌≡◌, ◌≢◌, ◌≤◌, ◌⊎◌, Some, None, IfOk, IfErr, is_some, true, false};
ghost use Rattle.std.specs.Io.KnownBytes.{Keeps};
ghost use Rattle.tide_io.specs.Faults.{Rose};
ghost use Rattle.tide_options.specs.Options.{asked_by};
ghost use Rattle.tide_shape.specs.Shapes.{shapes_of_paths};
ghost use Rattle.tide_workload.specs.Words.{Fault as FaultValue};
ghost use Rattle.tide_run.specs.Asked.{AsksToRead, IsAskedFor, IsShownOf, RanAsked, asks_for_made, asks_for_snapshot, asks_for_stats, printed_as, printed_of, printed_with, setting_for, trigger_for, visitors_for};
ghost use Rattle.tide_run.specs.Program.{ReadWork, RefusedInput};
ghost use Rattle.tide_run.specs.Runs.{IsRunOf, setting_of_work};

use crate::counting::counts_of;
use crate::running::{Outcome, plain, run, run_with_snapshot};
use crate::stop::Stop;
use std::alloc::Global;
use std::marker::Sync;
use std::thread::Threads;
use tide_io::{ReadError, Source, read_up_to};
use tide_make::make;
use tide_model::{Memory, Turnstile};
use tide_options::{Options, Refused, options_of};
use tide_snapshot::Snapshot;
use tide_workload::{Counts, Fault, MAX_BYTES, Workload, read};

/// A run, and what is to be printed of it: the counts of its calls, or the text of them where there are no counts; then
/// a line of each cycle where those are wanted, and the lines of a snapshot where there is one.
#[derive(Drop)]
pub struct Printable {
    pub load: Workload,
    pub outcome: Outcome,
    pub counts: Option<Counts>,
    pub stats: bool,
    pub snapshot: Option<Snapshot>,
    ghost on_heap: { stats ≡ true → is_some outcome.heap ≡ true },
}

/// The options that words ask for.
fn asked_options(alloc: Global, words: &[String]) -> Result<Options, Stop>
    ensures asked { IfOk result (λ options. asked_by words.now ≡ Some options) }
    ensures usage { result ≡ Err Stop.Usage → asked_by words.now ≡ None }
    ensures others { IfErr result (λ stop. (stop ≡ Stop.Usage) ⊎ (stop ≡ Stop.Memory)) }
    ensures few { IfOk result (λ options. options.visitors ≤ 8) }
    ensures shared { IfOk result (λ options. options.plain ≡ true → options.snapshot ≡ false) }
    ensures uncounted { IfOk result (λ options. options.plain ≡ true → options.stats ≡ false) }
{
    match options_of(alloc, words) {
        Ok(options) => Ok(options),
        Err(Refused::Usage) => Err(Stop::Usage),
        Err(Refused::Memory) => Err(Stop::Memory),
    }
}

/// Reads the workload.
fn take_workload<S: Source>(alloc: Global, source: &mut S) -> Result<Workload, Stop>
    ensures reads { IfOk result (λ work. ReadWork (S.left source.old) (S.left source.new) work) }
    ensures usage { result ≢ Err Stop.Usage }
    ensures read_fault { result ≡ Err Stop.ReadFault → Rose (S.faults source.old) (S.faults source.new) }
    ensures bad_input { (fault : FaultValue) → result ≡ Err (Stop.BadInput fault) →
        RefusedInput (S.left source.old) (S.left source.new) fault }
    ensures later { S.faults source.old ≤ S.faults source.new }
{
    let bytes = match read_up_to(alloc, source, MAX_BYTES + 1) {
        Ok(bytes) => bytes,
        Err(ReadError::Failed) => return Err(Stop::ReadFault),
        Err(ReadError::Memory) => return Err(Stop::Memory),
    };
    match read(alloc, bytes.as_slice()) {
        Ok(load) => Ok(load),
        Err(Fault::Memory) => Err(Stop::Memory),
        Err(fault) => Err(Stop::BadInput { fault }),
    }
}

/// The workload that is asked for: the generated one of a number, or the one that is read.
fn asked_workload<S: Source>(
    alloc: Global,
    number: Option<u64>,
    source: &mut S,
) -> Result<Workload, Stop>
    ensures asked { IfOk result (λ work. IsAskedFor number (S.left source.old) (S.left source.new) work) }
    ensures usage { result ≢ Err Stop.Usage }
    ensures unread { is_some number ≡ true → Keeps (S.left source.old) (S.left source.new) }
    ensures read_fault { result ≡ Err Stop.ReadFault →
        (number ≡ None) × Rose (S.faults source.old) (S.faults source.new) }
    ensures bad_input { (fault : FaultValue) → result ≡ Err (Stop.BadInput fault) →
        (number ≡ None) × RefusedInput (S.left source.old) (S.left source.new) fault }
    ensures later { S.faults source.old ≤ S.faults source.new }
{
    match number {
        Some(number) => make(alloc, number).map_err(|_| Stop::Memory),
        None => take_workload(alloc, source),
    }
}

/// Runs a workload on the heap that its mutators share, and takes a snapshot at the end if one is asked for.
fn run_shared<R: Threads + Sync, T: Turnstile>(
    rt: &R,
    threads: usize,
    alloc: Global,
    load: &Workload,
    options: Options,
    turnstile: &T,
) -> Result<(Outcome, Option<Snapshot>), Memory>
    requires { options.visitors ≤ 8 }
    ensures run { IfOk result (λ ran. IsRunOf load.now load.now.settings.trigger options.visitors ran.0) }
    ensures heap { IfOk result (λ ran. ran.0.heap ≡ Some (setting_of_work load.now options.visitors)) }
    ensures shown { IfOk result (λ ran. IsShownOf options.snapshot (shapes_of_paths load.now.paths) ran.0 ran.1) }
{
    if options.snapshot {
        let (outcome, snapshot) = run_with_snapshot(
            rt,
            threads,
            alloc,
            load,
            options.visitors,
            turnstile,
        )?;
        Ok((outcome, Some(snapshot)))
    } else {
        let outcome = run(rt, threads, alloc, load, options.visitors, turnstile)?;
        Ok((outcome, None))
    }
}

/// Runs a workload on the store that is asked for.
fn run_asked<R: Threads + Sync, T: Turnstile>(
    rt: &R,
    threads: usize,
    alloc: Global,
    load: &Workload,
    options: Options,
    turnstile: &T,
) -> Result<(Outcome, Option<Snapshot>), Memory>
    requires few { options.visitors ≤ 8 }
    requires shared { options.plain ≡ true → options.snapshot ≡ false }
    ensures run { IfOk result (λ ran. IsRunOf load.now (trigger_for options load.now) (visitors_for options) ran.0) }
    ensures heap { IfOk result (λ ran. ran.0.heap ≡ setting_for options load.now) }
    ensures shown { IfOk result (λ ran. IsShownOf options.snapshot (shapes_of_paths load.now.paths) ran.0 ran.1) }
{
    if options.plain {
        let outcome = plain(alloc, load)?;
        Ok((outcome, None))
    } else {
        let ran = run_shared(rt, threads, alloc, load, options, turnstile)?;
        Ok(ran)
    }
}

/// The counts of a run, where they are printed in place of its text.
fn asked_counts(is_made: bool, outcome: &Outcome) -> Result<Option<Counts>, Memory>
    ensures { IfOk result (λ counts. printed_with counts outcome.now ≡ printed_as is_made outcome.now) }
{
    if is_made {
        Ok(Some(counts_of(outcome)?))
    } else {
        Ok(None)
    }
}

/// Runs what the options ask for.
fn attempt_with<R: Threads + Sync, S: Source, T: Turnstile>(
    rt: &R,
    threads: usize,
    alloc: Global,
    options: Options,
    source: &mut S,
    turnstile: &T,
) -> Result<Printable, Stop>
    requires few { options.visitors ≤ 8 }
    requires shared { options.plain ≡ true → options.snapshot ≡ false }
    requires uncounted { options.plain ≡ true → options.stats ≡ false }
    ensures ran { IfOk result (λ done. RanAsked (Some options) (S.left source.old) (S.left source.new) done.outcome) }
    ensures keys { IfOk result (λ done. done.outcome.keys ≡ done.load.keys) }
    ensures prints { IfOk result (λ done.
        printed_with done.counts done.outcome ≡ printed_of (Some options) done.outcome) }
    ensures shown { IfOk result (λ done.
        IsShownOf options.snapshot (shapes_of_paths done.load.paths) done.outcome done.snapshot) }
    ensures stats { IfOk result (λ done. done.stats ≡ options.stats) }
    ensures usage { result ≢ Err Stop.Usage }
    ensures unread { is_some options.make ≡ true → Keeps (S.left source.old) (S.left source.new) }
    ensures read_fault { result ≡ Err Stop.ReadFault →
        (options.make ≡ None) × Rose (S.faults source.old) (S.faults source.new) }
    ensures bad_input { (fault : FaultValue) → result ≡ Err (Stop.BadInput fault) →
        (options.make ≡ None) × RefusedInput (S.left source.old) (S.left source.new) fault }
    ensures later { S.faults source.old ≤ S.faults source.new }
{
    let load = asked_workload(alloc, options.make, source)?;
    let (outcome, snapshot) = match run_asked(rt, threads, alloc, &load, options, turnstile) {
        Ok(ran) => ran,
        Err(Memory) => return Err(Stop::Memory),
    };
    match asked_counts(options.make.is_some(), &outcome) {
        Ok(counts) => Ok(Printable {
            load,
            outcome,
            counts,
            stats: options.stats,
            snapshot,
        }),
        Err(Memory) => Err(Stop::Memory),
    }
}

/// Runs what the words ask for.
pub fn attempt<R: Threads + Sync, S: Source, T: Turnstile>(
    rt: &R,
    threads: usize,
    alloc: Global,
    words: &[String],
    source: &mut S,
    turnstile: &T,
) -> Result<Printable, Stop>
    ensures ran { IfOk result (λ done.
        RanAsked (asked_by words.now) (S.left source.old) (S.left source.new) done.outcome) }
    ensures keys { IfOk result (λ done. done.outcome.keys ≡ done.load.keys) }
    ensures prints { IfOk result (λ done.
        printed_with done.counts done.outcome ≡ printed_of (asked_by words.now) done.outcome) }
    ensures shown { IfOk result (λ done. IsShownOf (asks_for_snapshot (asked_by words.now))
        (shapes_of_paths done.load.paths) done.outcome done.snapshot) }
    ensures stats { IfOk result (λ done. done.stats ≡ asks_for_stats (asked_by words.now)) }
    ensures usage { result ≡ Err Stop.Usage → asked_by words.now ≡ None }
    ensures words { IfErr result (λ stop. asked_by words.now ≡ None → (stop ≡ Stop.Usage) ⊎ (stop ≡ Stop.Memory)) }
    ensures unread { result ≡ Err Stop.Usage → Keeps (S.left source.old) (S.left source.new) }
    ensures unread_made { asks_for_made (asked_by words.now) ≡ true → Keeps (S.left source.old) (S.left source.new) }
    ensures read_fault { result ≡ Err Stop.ReadFault →
        AsksToRead (asked_by words.now) × Rose (S.faults source.old) (S.faults source.new) }
    ensures bad_input { (fault : FaultValue) → result ≡ Err (Stop.BadInput fault) →
        AsksToRead (asked_by words.now) × RefusedInput (S.left source.old) (S.left source.new) fault }
    ensures later { S.faults source.old ≤ S.faults source.new }
{
    let options = asked_options(alloc, words)?;
    attempt_with(rt, threads, alloc, options, source, turnstile)
}
