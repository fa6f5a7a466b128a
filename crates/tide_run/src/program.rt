//! The whole program, over any source and sinks.
ghost use Rattle.std.specs.Prelude.{◌≡◌, ◌≢◌, ◌≤◌, ◌⊎◌, ℕ, List, Some, None, true, IsOk, IsErr, IfSome, IsSomeAnd};
ghost use Rattle.std.specs.Io.KnownBytes.{Appends, Keeps};
ghost use Rattle.tide_io.specs.Faults.{AppendsPart, Rose};
ghost use Rattle.tide_options.specs.Options.{asked_by};
ghost use Rattle.tide_retained.specs.Contents.{HasKeysOf};
ghost use Rattle.tide_shape.specs.Shapes.{shapes_of_paths};
ghost use Rattle.tide_workload.specs.Words.{reads_workload};
ghost use Rattle.tide_run.specs.Asked.{AsksToRead, Prints, PrintsPart, RanAsked, asks_for_made};
ghost use Rattle.tide_run.specs.Printing.{IsPrintedWith};
ghost use Rattle.tide_run.specs.Program.{input_of, status_line, IsStatus, TellsLine, ToldFault};

use crate::asking::{Printable, attempt};
use crate::printing::print_run;
use crate::running::Outcome;
use crate::stop::tell;
use std::alloc::Global;
use std::marker::Sync;
use std::thread::Threads;
use tide_io::{Sink, Source};
use tide_model::Turnstile;

/// How a program ended, with the outcome of its run where there was one.
#[derive(Drop)]
pub struct Ended {
    /// 0: printed whole. 2: the words are refused. 3: the bytes that were read are. 4: the source failed. 5: the
    /// sink failed. 6: want of memory.
    pub status: u8,
    pub outcome: Option<Outcome>,
}

/// Prints a run, and tells where that fails.
fn print<K: Sink, E: Sink>(out: &mut K, err: &mut E, done: Printable) -> Ended
    requires keys { done.outcome.keys ≡ done.load.keys }
    requires shapes { IfSome done.snapshot (HasKeysOf (shapes_of_paths done.load.paths)) }
    ensures status { (result.status ≡ 0) ⊎ (result.status ≡ 5) }
    ensures outcome { result.outcome ≡ Some done.outcome }
    ensures printed { result.status ≡ 0 → (text : List ℕ) × IsPrintedWith done text
        × Appends (K.held out.old) (K.held out.new) text }
    ensures part { result.status ≡ 5 → (text : List ℕ) × IsPrintedWith done text
        × AppendsPart (K.held out.old) (K.held out.new) text }
    ensures handed_on { result.status ≡ 0 → K.waiting out.new ≡ 0 }
    ensures write_fault { result.status ≡ 5 → Rose (K.faults out.old) (K.faults out.new) }
    ensures quiet { result.status ≡ 0 → Keeps (E.held err.old) (E.held err.new) }
    ensures told { result.status ≢ 0 →
        TellsLine (E.held err.old) (E.held err.new) (E.faults err.old) (E.faults err.new) (status_line result.status) }
    ensures later_out { K.faults out.old ≤ K.faults out.new }
    ensures later_err { E.faults err.old ≤ E.faults err.new }
{
    match print_run(out, &done) {
        Ok(()) => Ended {
            status: 0,
            outcome: Some(done.outcome),
        },
        Err(_) => {
            tell(err, "riptide: write fault\n");
            Ended {
                status: 5,
                outcome: Some(done.outcome),
            }
        }
    }
}

/// Runs the program.
///
/// `words` are those of the command line, of which the first is the program's name. A workload is read from `source`,
/// run on the store that the words ask for, on no more than so many threads, and the text of the run is printed to
/// `out`. Where the words ask for the generated workload of a number, nothing is read, and a summary is printed in
/// place of the text; where they ask for lines of cycles, a line of each that ended follows the text, and where they ask
/// for a snapshot, a line of each cell that lives at the end. Where one of these fails, a line on `err` says why.
pub fn riptide<R: Threads + Sync, S: Source, K: Sink, E: Sink, T: Turnstile>(
    rt: &R,
    threads: usize,
    alloc: Global,
    words: &[String],
    source: &mut S,
    out: &mut K,
    err: &mut E,
    turnstile: &T,
) -> Ended
    ensures status { IsStatus result.status }

    // What was run is a legal history of the workload that was asked for, each operation once and in its order.
    ensures ran { (result.status ≡ 0) ⊎ (result.status ≡ 5) →
        IsSomeAnd result.outcome (RanAsked (asked_by words.now) (S.left source.old) (S.left source.new)) }
    ensures printed { result.status ≡ 0 →
        IsSomeAnd result.outcome (Prints (asked_by words.now) (K.held out.old) (K.held out.new)) }
    ensures printed_part { result.status ≡ 5 →
        IsSomeAnd result.outcome (PrintsPart (asked_by words.now) (K.held out.old) (K.held out.new)) }

    // What was printed waits in no buffer.
    ensures handed_on { result.status ≡ 0 → K.waiting out.new ≡ 0 }

    // Where nothing was run, nothing is printed.
    ensures no_outcome { result.status ≢ 0 → result.status ≢ 5 → result.outcome ≡ None }
    ensures nothing_printed { result.status ≢ 0 → result.status ≢ 5 → Keeps (K.held out.old) (K.held out.new) }

    // Each answer but want of memory has its cause.
    ensures usage { result.status ≡ 2 → asked_by words.now ≡ None }
    ensures refused { asked_by words.now ≡ None → (result.status ≡ 2) ⊎ (result.status ≡ 6) }
    ensures unread { result.status ≡ 2 → Keeps (S.left source.old) (S.left source.new) }
    ensures bad_input { result.status ≡ 3 →
        AsksToRead (asked_by words.now) × ToldFault (S.left source.old) (S.left source.new)
        (E.held err.old) (E.held err.new) (E.faults err.old) (E.faults err.new) }
    ensures read_fault { result.status ≡ 4 →
        AsksToRead (asked_by words.now) × Rose (S.faults source.old) (S.faults source.new) }
    ensures write_fault { result.status ≡ 5 → Rose (K.faults out.old) (K.faults out.new) }

    // What is accepted is run, and what is refused is refused, unless something failed or memory ran out.
    ensures accepts { IfSome (S.left source.old) (λ bytes.
        AsksToRead (asked_by words.now) → IsOk (reads_workload (input_of bytes)) →
        ¬ Rose (S.faults source.old) (S.faults source.new) → ¬ Rose (K.faults out.old) (K.faults out.new) →
        (result.status ≡ 0) ⊎ (result.status ≡ 6)) }
    ensures refuses { IfSome (S.left source.old) (λ bytes.
        AsksToRead (asked_by words.now) → IsErr (reads_workload (input_of bytes)) →
        ¬ Rose (S.faults source.old) (S.faults source.new) → (result.status ≡ 3) ⊎ (result.status ≡ 6)) }

    // The generated workload is run with nothing read, unless something failed or memory ran out.
    ensures made { asks_for_made (asked_by words.now) ≡ true → ¬ Rose (K.faults out.old) (K.faults out.new) →
        (result.status ≡ 0) ⊎ (result.status ≡ 6) }
    ensures unread_made { asks_for_made (asked_by words.now) ≡ true → Keeps (S.left source.old) (S.left source.new) }

    ensures quiet { result.status ≡ 0 → Keeps (E.held err.old) (E.held err.new) }
    ensures told { result.status ≢ 0 → result.status ≢ 3 →
        TellsLine (E.held err.old) (E.held err.new) (E.faults err.old) (E.faults err.new) (status_line result.status) }

    ensures source_faults { S.faults source.old ≤ S.faults source.new }
    ensures out_faults { K.faults out.old ≤ K.faults out.new }
    ensures err_faults { E.faults err.old ≤ E.faults err.new }
{
    match attempt(rt, threads, alloc, words, source, turnstile) {
        Ok(done) => print(out, err, done),
        Err(stop) => {
            stop.tell(err);
            Ended {
                status: stop.status(),
                outcome: None,
            }
        }
    }
}
