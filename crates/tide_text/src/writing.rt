//! Writing lines to a sink, each as one piece but for the lines of a cycle. How a line is composed, `lines` says.
ghost use Rattle.std.specs.Prelude.{◌≡◌, ◌+◌, ◌≤◌, [], ◌++◌, length, OnErr, OnOk};
ghost use Rattle.std.specs.List.{flat_map};
ghost use Rattle.std.specs.Io.KnownBytes.{Appends};
ghost use Rattle.tide_io.specs.Faults.{AppendsPart, HasCause};
ghost use Rattle.tide_text.specs.lines.FaultLine.{fault_line};
ghost use Rattle.tide_text.specs.lines.Line.{blackened_text, call_line, counts_text, cycle_line, freed_cell_text, freed_text, kind_text, live_line, mutator_line, statistics_line, told_text};
ghost use Rattle.tide_text.specs.lines.OpText.{HasText};

use crate::lines::{LONGEST_LINE, Line};
use crate::work::{Fault, Workload};
use tide_io::{Failed, Sink, write_all};
use tide_model::{Op, Reply};

/// A line of a run or of a fault.
type RunLine = Line<LONGEST_LINE>;

/// Writes the line above a mutator's calls, as one piece.
#[tactic(auto, unfolding(crate::specs::lines::Line::mutator_line))]
pub fn write_mutator<K: Sink>(out: &mut K, m: u32) -> Result<(), Failed>
    ensures whole { OnOk result (Appends (K.held out.old) (K.held out.new) (mutator_line m)) }
    ensures part { OnErr result (AppendsPart (K.held out.old) (K.held out.new) (mutator_line m)) }
    ensures cause { HasCause (K.faults out.old) (K.faults out.new) result }
{
    let mut line = RunLine::new();
    line.text("mutator").operand(m).text("\n");
    write_all(out, line.as_bytes())
}

/// Writes the line of a call: what was asked, and what was answered. The operation's property key, where it has one, is
/// a key of the workload.
#[tactic(auto, unfolding(crate::specs::lines::Line::call_line))]
pub fn write_call<K: Sink>(out: &mut K, load: &Workload, op: Op, reply: Reply) -> Result<(), Failed>
    requires { HasText load.now.keys op }
    ensures whole { OnOk result (Appends (K.held out.old) (K.held out.new) (call_line load.now.keys op reply)) }
    ensures part { OnErr result (AppendsPart (K.held out.old) (K.held out.new) (call_line load.now.keys op reply)) }
    ensures cause { HasCause (K.faults out.old) (K.faults out.new) result }
{
    let mut line = RunLine::new();
    line.op(load.keys(), op).text(" = ").reply(reply).text("\n");
    write_all(out, line.as_bytes())
}

/// Writes how many cells live at the end.
#[tactic(auto, unfolding(crate::specs::lines::Line::live_line))]
pub fn write_live<K: Sink>(out: &mut K, live: u32) -> Result<(), Failed>
    ensures whole { OnOk result (Appends (K.held out.old) (K.held out.new) (live_line live)) }
    ensures part { OnErr result (AppendsPart (K.held out.old) (K.held out.new) (live_line live)) }
    ensures cause { HasCause (K.faults out.old) (K.faults out.new) result }
{
    let mut line = RunLine::new();
    line.text("live").operand(live).text("\n");
    write_all(out, line.as_bytes())
}

/// Writes the line that tells a fault, as one piece.
#[tactic(auto, unfolding(crate::specs::lines::FaultLine::fault_line))]
pub fn write_fault_line<K: Sink>(out: &mut K, fault: Fault) -> Result<(), Failed>
    ensures whole { OnOk result (Appends (K.held out.old) (K.held out.new) (fault_line fault)) }
    ensures part { OnErr result (AppendsPart (K.held out.old) (K.held out.new) (fault_line fault)) }
    ensures cause { HasCause (K.faults out.old) (K.faults out.new) result }
{
    let mut line = RunLine::new();
    line.text("riptide: ").fault(fault).text("\n");
    write_all(out, line.as_bytes())
}

/// Writes the line of a cycle: how many cells lived after its end, and which it freed.
pub fn write_cycle<K: Sink>(
    out: &mut K,
    number: u64,
    kept: u32,
    freed: &[u32],
) -> Result<(), Failed>
    ensures whole { OnOk result (Appends (K.held out.old) (K.held out.new) (cycle_line number kept freed.now)) }
    ensures part { OnErr result (AppendsPart (K.held out.old) (K.held out.new) (cycle_line number kept freed.now)) }
    ensures cause { HasCause (K.faults out.old) (K.faults out.new) result }
{
    write_counts(out, number, kept, freed.len())?;
    write_freed(out, freed)?;
    write_all(out, b"\n")
}

// How many cells a cycle kept and freed.
#[tactic(auto, unfolding(crate::specs::lines::Line::counts_text))]
fn compose_counts(line: &mut RunLine, number: u64, kept: u32, freed: usize)
    requires { line.old ≡ [] }
    ensures { line.new ≡ counts_text number kept freed }
{
    line.text("cycle").operand(number);
    line.text(" kept").operand(kept);
    line.text(" freed").operand(freed);
}

// Writes them as one piece.
fn write_counts<K: Sink>(out: &mut K, number: u64, kept: u32, freed: usize) -> Result<(), Failed>
    ensures whole { OnOk result (Appends (K.held out.old) (K.held out.new) (counts_text number kept freed)) }
    ensures part { OnErr result (AppendsPart (K.held out.old) (K.held out.new) (counts_text number kept freed)) }
    ensures cause { HasCause (K.faults out.old) (K.faults out.new) result }
{
    let mut line = RunLine::new();
    compose_counts(&mut line, number, kept, freed);
    write_all(out, line.as_bytes())
}

// The kind of a cycle.
#[tactic(auto, unfolding(crate::specs::lines::Line::kind_text))]
fn kind_text(full: bool) -> &'static str
    ensures is { result.now ≡ kind_text full }
    ensures short { length result.now ≡ 5 }
{
    if full { " full" } else { " Eden" }
}

// What is told of a cycle behind a text, but for what was made black.
#[tactic(auto, unfolding(crate::specs::lines::Line::told_text))]
fn compose_told(
    line: &mut RunLine,
    number: u64,
    full: bool,
    freezes: u64,
    before: u32,
    marking: u32,
)
    requires { line.old ≡ [] }
    ensures { line.new ≡ told_text number full freezes before marking }
{
    line.text("stats").operand(number).text(kind_text(full));
    line.text(" freezes").operand(freezes);
    line.text(" born").operand(before);
    line.text(" marking").operand(marking);
}

// How many cells pauses and visitors made black for it.
#[tactic(auto, unfolding(crate::specs::lines::Line::blackened_text))]
fn compose_blackened(line: &mut RunLine, paused: u64, visited: u64)
    requires { line.old ≡ [] }
    ensures { line.new ≡ blackened_text paused visited }
{
    line.text(" paused").operand(paused);
    line.text(" visited").operand(visited).text("\n");
}

// Writes the first of these as one piece.
fn write_told<K: Sink>(
    out: &mut K,
    number: u64,
    full: bool,
    freezes: u64,
    before: u32,
    marking: u32,
) -> Result<(), Failed>
    ensures whole { OnOk result (Appends (K.held out.old) (K.held out.new)
        (told_text number full freezes before marking)) }
    ensures part { OnErr result (AppendsPart (K.held out.old) (K.held out.new)
        (told_text number full freezes before marking)) }
    ensures cause { HasCause (K.faults out.old) (K.faults out.new) result }
{
    let mut line = RunLine::new();
    compose_told(&mut line, number, full, freezes, before, marking);
    write_all(out, line.as_bytes())
}

// Writes the second.
fn write_blackened<K: Sink>(out: &mut K, paused: u64, visited: u64) -> Result<(), Failed>
    ensures whole { OnOk result (Appends (K.held out.old) (K.held out.new) (blackened_text paused visited)) }
    ensures part { OnErr result (AppendsPart (K.held out.old) (K.held out.new) (blackened_text paused visited)) }
    ensures cause { HasCause (K.faults out.old) (K.faults out.new) result }
{
    let mut line = RunLine::new();
    compose_blackened(&mut line, paused, visited);
    write_all(out, line.as_bytes())
}

/// Writes the line of a cycle behind a text: its kind, how many freezes it went through, how many cells were born
/// before it, since the last end, and how many while it marked, and how many its pauses and the visitors made black.
pub fn write_statistics<K: Sink>(
    out: &mut K,
    number: u64,
    full: bool,
    freezes: u64,
    before: u32,
    marking: u32,
    paused: u64,
    visited: u64,
) -> Result<(), Failed>
    ensures whole { OnOk result (Appends (K.held out.old) (K.held out.new)
        (statistics_line number full freezes before marking paused visited)) }
    ensures part { OnErr result (AppendsPart (K.held out.old) (K.held out.new)
        (statistics_line number full freezes before marking paused visited)) }
    ensures cause { HasCause (K.faults out.old) (K.faults out.new) result }
{
    write_told(out, number, full, freezes, before, marking)?;
    write_blackened(out, paused, visited)
}

// The cells after a colon, if there are any.
fn write_freed<K: Sink>(out: &mut K, freed: &[u32]) -> Result<(), Failed>
    ensures whole { OnOk result (Appends (K.held out.old) (K.held out.new) (freed_text freed.now)) }
    ensures part { OnErr result (AppendsPart (K.held out.old) (K.held out.new) (freed_text freed.now)) }
    ensures cause { HasCause (K.faults out.old) (K.faults out.new) result }
{
    if freed.is_empty() {
        return Ok(());
    }
    write_all(out, b":")?;
    write_cells(out, freed)
}

// Each cell as a piece of its own.
fn write_cells<K: Sink>(out: &mut K, cells: &[u32]) -> Result<(), Failed>
    ensures whole { OnOk result (Appends (K.held out.old) (K.held out.new) (flat_map freed_cell_text cells.now)) }
    ensures part { OnErr result (AppendsPart (K.held out.old) (K.held out.new) (flat_map freed_cell_text cells.now)) }
    ensures cause { HasCause (K.faults out.old) (K.faults out.new) result }
{
    for id in cells {
        write_cell(out, *id)?;
    }
    Ok(())
}

#[tactic(auto, unfolding(crate::specs::lines::Line::freed_cell_text))]
fn write_cell<K: Sink>(out: &mut K, id: u32) -> Result<(), Failed>
    ensures whole { OnOk result (Appends (K.held out.old) (K.held out.new) (freed_cell_text id)) }
    ensures part { OnErr result (AppendsPart (K.held out.old) (K.held out.new) (freed_cell_text id)) }
    ensures cause { HasCause (K.faults out.old) (K.faults out.new) result }
{
    let mut line = RunLine::new();
    line.text(" ").cell(id);
    write_all(out, line.as_bytes())
}
