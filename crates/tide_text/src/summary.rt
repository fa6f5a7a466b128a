//! Writing the summary of a run, line by line.
ghost use Rattle.std.specs.Prelude.{◌≡◌, [], ◌++◌, OnErr, OnOk};
ghost use Rattle.std.specs.Io.KnownBytes.{Appends};
ghost use Rattle.tide_io.specs.Faults.{AppendsPart, HasCause};
ghost use Rattle.tide_text.specs.Summary.{calls_line, replies_line, summary_text};

use crate::counts::Counts;
use crate::lines::Line;
use crate::writing::write_live;
use tide_io::{Failed, Sink, write_all};

/// How many bytes a line of a summary has at most: seven words of up to eight bytes, each with a number.
pub const LONGEST_COUNTS: usize = 128;

/// A line of a summary.
type CountsLine = Line<LONGEST_COUNTS>;

// How many mutators there are and how many calls they made.
#[tactic(auto, unfolding(crate::specs::Summary::calls_line))]
fn compose_calls_line(line: &mut CountsLine, counts: Counts)
    requires { line.old ≡ [] }
    ensures { line.new ≡ calls_line counts }
{
    line.text("mutators").operand(counts.mutators);
    line.text(" calls").operand(counts.calls).text("\n");
}

/// Writes how many mutators there are and how many calls they made.
fn write_calls_line<K: Sink>(out: &mut K, counts: Counts) -> Result<(), Failed>
    ensures whole { OnOk result (Appends (K.held out.old) (K.held out.new) (calls_line counts)) }
    ensures part { OnErr result (AppendsPart (K.held out.old) (K.held out.new) (calls_line counts)) }
    ensures cause { HasCause (K.faults out.old) (K.faults out.new) result }
{
    let mut line = CountsLine::new();
    compose_calls_line(&mut line, counts);
    write_all(out, line.as_bytes())
}

// How many calls were answered in each way.
#[tactic(auto, unfolding(crate::specs::Summary::replies_line))]
fn compose_replies_line(line: &mut CountsLine, counts: Counts)
    requires { line.old ≡ [] }
    ensures { line.new ≡ replies_line counts }
{
    line.text("born").operand(counts.born);
    line.text(" ok").operand(counts.ok);
    line.text(" cell").operand(counts.cell);
    line.text(" int").operand(counts.int);
    line.text(" empty").operand(counts.empty);
    line.text(" asked").operand(counts.asked);
    line.text(" refused").operand(counts.refused).text("\n");
}

/// Writes how many calls were answered in each way.
fn write_replies_line<K: Sink>(out: &mut K, counts: Counts) -> Result<(), Failed>
    ensures whole { OnOk result (Appends (K.held out.old) (K.held out.new) (replies_line counts)) }
    ensures part { OnErr result (AppendsPart (K.held out.old) (K.held out.new) (replies_line counts)) }
    ensures cause { HasCause (K.faults out.old) (K.faults out.new) result }
{
    let mut line = CountsLine::new();
    compose_replies_line(&mut line, counts);
    write_all(out, line.as_bytes())
}

/// Writes the summary of a run: three lines, each as one piece.
pub fn write_summary<K: Sink>(out: &mut K, counts: Counts) -> Result<(), Failed>
    ensures whole { OnOk result (Appends (K.held out.old) (K.held out.new) (summary_text counts)) }
    ensures part { OnErr result (AppendsPart (K.held out.old) (K.held out.new) (summary_text counts)) }
    ensures cause { HasCause (K.faults out.old) (K.faults out.new) result }
{
    write_calls_line(out, counts)?;
    write_replies_line(out, counts)?;
    write_live(out, counts.live)
}
