//! Printing a run.
ghost use Rattle.std.specs.Prelude.{◌≡◌, ◌<◌, ◌+◌, ◌≤◌, ℕ, List, length, All, IfSome, OnOk, OnErr};
ghost use Rattle.std.specs.List.{flat_map};
ghost use Rattle.std.specs.Io.KnownBytes.{Appends};
ghost use Rattle.tide_io.specs.Faults.{AppendsPart, HasCause};
ghost use Rattle.tide_retained.specs.Contents.{HasKeysOf};
ghost use Rattle.tide_shape.specs.Shapes.{shapes_of_paths};
ghost use Rattle.tide_workload.specs.Words.{HasText, cycles_from, mutator_text, mutators_text, text_of};
ghost use Rattle.tide_model.specs.State.{empty_state};
ghost use Rattle.tide_run.specs.Asked.{printed_with, statistics_of, told_line};
ghost use Rattle.tide_run.specs.Printing.{answered_line, reported_line, AreShownLines, IsPrintedWith};

use crate::asking::Printable;
use crate::running::Outcome;
use tide_io::{Failed, Sink};
use tide_periods::Answered;
use tide_report::{CycleLine, Report};
use tide_threads::CycleStatistics;
use tide_workload::{
    Workload, write_call, write_cycle, write_live, write_mutator, write_statistics, write_summary,
};

/// Writes the line of each call.
fn write_calls<K: Sink>(out: &mut K, load: &Workload, calls: &[Answered]) -> Result<(), Failed>
    requires { All (λ call. HasText load.now.keys call.op) calls.now }
    ensures whole { OnOk result (Appends (K.held out.old) (K.held out.new) (flat_map
        (answered_line load.now.keys) calls.now)) }
    ensures part { OnErr result (AppendsPart (K.held out.old) (K.held out.new) (flat_map
        (answered_line load.now.keys) calls.now)) }
    ensures cause { HasCause (K.faults out.old) (K.faults out.new) result }
{
    for call in calls {
        write_call(out, load, call.op, call.reply)?;
    }
    Ok(())
}

/// Writes the line of a cycle of a report.
fn write_reported<K: Sink>(out: &mut K, report: &Report, line: &CycleLine) -> Result<(), Failed>
    requires within { line.now.first + line.now.freed ≤ length report.now.ids }
    ensures whole { OnOk result (Appends (K.held out.old) (K.held out.new) (reported_line report.now.ids line.now)) }
    ensures part { OnErr result (AppendsPart (K.held out.old) (K.held out.new)
        (reported_line report.now.ids line.now)) }
    ensures cause { HasCause (K.faults out.old) (K.faults out.new) result }
{
    write_cycle(out, line.number, line.kept, report.ids_of(*line))
}

/// Writes the line of each cycle of a report.
fn write_cycles<K: Sink>(out: &mut K, report: &Report) -> Result<(), Failed>
    ensures whole { OnOk result (Appends (K.held out.old) (K.held out.new) (flat_map
        (reported_line report.now.ids) report.now.cycles)) }
    ensures part { OnErr result (AppendsPart (K.held out.old) (K.held out.new) (flat_map
        (reported_line report.now.ids) report.now.cycles)) }
    ensures cause { HasCause (K.faults out.old) (K.faults out.new) result }
{
    let lines = report.cycles();
    for line in lines {
        write_reported(out, report, line)?;
    }
    Ok(())
}

/// Writes a mutator's line and those of its calls.
fn write_calls_of<K: Sink>(
    out: &mut K,
    load: &Workload,
    outcome: &Outcome,
    m: u32,
) -> Result<(), Failed>
    requires mutator { m < outcome.now.layout.mutators }
    requires keys { outcome.now.keys ≡ load.now.keys }
    ensures whole { OnOk result (Appends (K.held out.old) (K.held out.new)
        (mutator_text outcome.now.keys m outcome.now.history)) }
    ensures part { OnErr result (AppendsPart (K.held out.old) (K.held out.new)
        (mutator_text outcome.now.keys m outcome.now.history)) }
    ensures cause { HasCause (K.faults out.old) (K.faults out.new) result }
{
    write_mutator(out, m)?;
    write_calls(out, load, outcome.calls(m))
}

/// Writes the lines of each mutator.
fn write_mutators<K: Sink>(out: &mut K, load: &Workload, outcome: &Outcome) -> Result<(), Failed>
    requires keys { outcome.now.keys ≡ load.now.keys }
    ensures whole { OnOk result (Appends (K.held out.old) (K.held out.new)
        (mutators_text outcome.now.keys outcome.now.layout.mutators outcome.now.history)) }
    ensures part { OnErr result (AppendsPart (K.held out.old) (K.held out.new)
        (mutators_text outcome.now.keys outcome.now.layout.mutators outcome.now.history)) }
    ensures cause { HasCause (K.faults out.old) (K.faults out.new) result }
{
    for m in 0..outcome.mutators() {
        write_calls_of(out, load, outcome, m)?;
    }
    Ok(())
}

/// Writes the lines of the cycles.
fn write_cycles_of<K: Sink>(out: &mut K, outcome: &Outcome) -> Result<(), Failed>
    ensures whole { OnOk result (Appends (K.held out.old) (K.held out.new)
        (cycles_from outcome.now.layout empty_state outcome.now.history)) }
    ensures part { OnErr result (AppendsPart (K.held out.old) (K.held out.new)
        (cycles_from outcome.now.layout empty_state outcome.now.history)) }
    ensures cause { HasCause (K.faults out.old) (K.faults out.new) result }
{
    write_cycles(out, outcome.report())
}

/// Writes the text of a run.
fn write_text<K: Sink>(out: &mut K, load: &Workload, outcome: &Outcome) -> Result<(), Failed>
    requires keys { outcome.now.keys ≡ load.now.keys }
    ensures whole { OnOk result (Appends (K.held out.old) (K.held out.new)
        (text_of outcome.now.keys outcome.now.layout outcome.now.history)) }
    ensures part { OnErr result (AppendsPart (K.held out.old) (K.held out.new)
        (text_of outcome.now.keys outcome.now.layout outcome.now.history)) }
    ensures cause { HasCause (K.faults out.old) (K.faults out.new) result }
{
    write_mutators(out, load, outcome)?;
    write_cycles_of(out, outcome)?;
    write_live(out, outcome.live())
}

/// Writes the summary of a run where there are counts, and else its text.
fn write_run<K: Sink>(out: &mut K, done: &Printable) -> Result<(), Failed>
    requires keys { done.now.outcome.keys ≡ done.now.load.keys }
    ensures whole { OnOk result (Appends (K.held out.old) (K.held out.new)
        (printed_with done.now.counts done.now.outcome)) }
    ensures part { OnErr result (AppendsPart (K.held out.old) (K.held out.new)
        (printed_with done.now.counts done.now.outcome)) }
    ensures cause { HasCause (K.faults out.old) (K.faults out.new) result }
{
    match done.counts {
        Some(counts) => write_summary(out, counts),
        None => write_text(out, &done.load, &done.outcome),
    }
}

/// Writes a line of each cycle.
fn write_told<K: Sink>(out: &mut K, told: &[CycleStatistics]) -> Result<(), Failed>
    ensures whole { OnOk result (Appends (K.held out.old) (K.held out.new) (flat_map told_line told.now)) }
    ensures part { OnErr result (AppendsPart (K.held out.old) (K.held out.new) (flat_map told_line told.now)) }
    ensures cause { HasCause (K.faults out.old) (K.faults out.new) result }
{
    for cycle in told {
        write_statistics(
            out,
            cycle.number,
            cycle.full,
            cycle.freezes,
            cycle.before,
            cycle.marking,
            cycle.paused,
            cycle.visited,
        )?;
    }
    Ok(())
}

/// Writes a line of each cycle, where these are wanted.
fn write_told_of<K: Sink>(out: &mut K, done: &Printable) -> Result<(), Failed>
    ensures whole { OnOk result (Appends (K.held out.old) (K.held out.new)
        (statistics_of done.now.stats done.now.outcome)) }
    ensures part { OnErr result (AppendsPart (K.held out.old) (K.held out.new)
        (statistics_of done.now.stats done.now.outcome)) }
    ensures cause { HasCause (K.faults out.old) (K.faults out.new) result }
{
    if done.stats {
        write_told(out, done.outcome.statistics())
    } else {
        Ok(())
    }
}

/// Writes the lines of a snapshot, where there is one.
fn write_snapshot<K: Sink>(out: &mut K, done: &Printable) -> Result<(), Failed>
    requires shapes { IfSome done.now.snapshot (HasKeysOf (shapes_of_paths done.now.load.paths)) }
    ensures whole { OnOk result ((lines : List ℕ) × AreShownLines done.now.load.keys done.now.snapshot lines
        × Appends (K.held out.old) (K.held out.new) lines) }
    ensures part { OnErr result ((lines : List ℕ) × AreShownLines done.now.load.keys done.now.snapshot lines
        × AppendsPart (K.held out.old) (K.held out.new) lines) }
    ensures cause { HasCause (K.faults out.old) (K.faults out.new) result }
{
    match &done.snapshot {
        Some(snapshot) => snapshot.write_lines(out, &done.load),
        None => Ok(()),
    }
}

/// There are lines of a snapshot, where there is one: a law, which has no code.
fn has_lines(done: &Printable)
    ensures { (lines : List ℕ) × AreShownLines done.now.load.keys done.now.snapshot lines }
{
    match &done.snapshot {
        Some(snapshot) => snapshot.has_lines(),
        None => {}
    }
}

/// Writes what is to be printed of a run, and has the sink hand on all of it.
pub fn print_run<K: Sink>(out: &mut K, done: &Printable) -> Result<(), Failed>
    requires keys { done.now.outcome.keys ≡ done.now.load.keys }
    requires shapes { IfSome done.now.snapshot (HasKeysOf (shapes_of_paths done.now.load.paths)) }
    ensures whole { OnOk result ((text : List ℕ) × IsPrintedWith done.now text
        × Appends (K.held out.old) (K.held out.new) text) }
    ensures part { OnErr result ((text : List ℕ) × IsPrintedWith done.now text
        × AppendsPart (K.held out.old) (K.held out.new) text) }
    ensures handed_on { OnOk result (K.waiting out.new ≡ 0) }
    ensures cause { HasCause (K.faults out.old) (K.faults out.new) result }
{
    // where the text fails, it is a part of it with its lines
    has_lines(done);
    write_run(out, done)?;
    write_told_of(out, done)?;
    write_snapshot(out, done)?;
    out.flush()
}
