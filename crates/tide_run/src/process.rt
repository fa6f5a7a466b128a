//! The one call of a process: from the words of its command line, or that there was no memory for them, to how it
//! ended, with the outcome of its run.
ghost use Rattle.std.specs.Prelude.{◌≡◌, ◌≢◌, ◌≤◌, ◌⊎◌, None, true, IfOk, IfSome, IsErr, IsOk, IsSomeAnd};
ghost use Rattle.std.specs.Io.KnownBytes.{Keeps};
ghost use Rattle.tide_io.specs.Faults.{Rose};
ghost use Rattle.tide_options.specs.Options.{asked_by};
ghost use Rattle.tide_workload.specs.Words.{reads_workload};
ghost use Rattle.tide_run.specs.Asked.{AsksToRead, Prints, PrintsPart, RanAsked, asks_for_made};
ghost use Rattle.tide_run.specs.Program.{input_of, status_line, IsStatus, TellsLine, ToldFault};

use crate::program::{Ended, riptide};
use std::alloc::{AllocError, Global};
use std::marker::Sync;
use std::thread::Threads;
use tide_io::{Sink, Source, write_all};
use tide_model::FreePass;

/// On how many threads a part runs at most. Starting one takes as long as many calls, and a part starts them anew.
const THREADS: usize = 4;

/// Does what the words of the command line ask for, and answers how it ended, with the exit status. `Err` for want of
/// memory for the words.
pub fn answer<R: Threads + Sync, S: Source, K: Sink, E: Sink>(
    rt: &R,
    alloc: Global,
    words: Result<Vec<String>, AllocError>,
    source: &mut S,
    out: &mut K,
    err: &mut E,
) -> Ended
    ensures status { IsStatus result.status }

    // Each status but 6 has its cause, and without words it is 6.
    ensures usage { result.status ≡ 2 → IfOk words (λ words. asked_by words.items ≡ None) }
    ensures bad_input { result.status ≡ 3 → IfOk words (λ words. AsksToRead (asked_by words.items)) ×
        ToldFault (S.left source.old) (S.left source.new)
        (E.held err.old) (E.held err.new) (E.faults err.old) (E.faults err.new) }
    ensures read_fault { result.status ≡ 4 → IfOk words (λ words. AsksToRead (asked_by words.items)) ×
        Rose (S.faults source.old) (S.faults source.new) }
    ensures write_fault { result.status ≡ 5 → Rose (K.faults out.old) (K.faults out.new) }
    ensures no_words { IsErr words → result.status ≡ 6 }

    // What was run is a legal history of the workload that was asked for, on the heap unless the plain store was.
    ensures ran { (result.status ≡ 0) ⊎ (result.status ≡ 5) → IfOk words (λ words.
        IsSomeAnd result.outcome (RanAsked (asked_by words.items) (S.left source.old) (S.left source.new))) }
    ensures no_outcome { result.status ≢ 0 → result.status ≢ 5 → result.outcome ≡ None }

    // At 0 its text is printed whole, or its summary, with the lines of a snapshot behind it, and at 5 a first part of
    // that; else nothing is.
    ensures printed { result.status ≡ 0 → IfOk words (λ words.
        IsSomeAnd result.outcome (Prints (asked_by words.items) (K.held out.old) (K.held out.new))) }
    ensures handed_on { result.status ≡ 0 → K.waiting out.new ≡ 0 }
    ensures printed_part { result.status ≡ 5 → IfOk words (λ words.
        IsSomeAnd result.outcome (PrintsPart (asked_by words.items) (K.held out.old) (K.held out.new))) }
    ensures nothing_printed { result.status ≢ 0 → result.status ≢ 5 → Keeps (K.held out.old) (K.held out.new) }

    // Words that ask for nothing are refused with nothing read, unless memory ran out.
    ensures refused { IfOk words (λ words. asked_by words.items ≡ None → (result.status ≡ 2) ⊎ (result.status ≡ 6)) }
    ensures unread { result.status ≡ 2 → Keeps (S.left source.old) (S.left source.new) }

    // What is accepted is run, and what is refused is refused, unless something failed or memory ran out.
    ensures accepts { IfOk words (λ words. IfSome (S.left source.old) (λ bytes.
        AsksToRead (asked_by words.items) → IsOk (reads_workload (input_of bytes)) →
        ¬ Rose (S.faults source.old) (S.faults source.new) → ¬ Rose (K.faults out.old) (K.faults out.new) →
        (result.status ≡ 0) ⊎ (result.status ≡ 6))) }
    ensures refuses { IfOk words (λ words. IfSome (S.left source.old) (λ bytes.
        AsksToRead (asked_by words.items) → IsErr (reads_workload (input_of bytes)) →
        ¬ Rose (S.faults source.old) (S.faults source.new) → (result.status ≡ 3) ⊎ (result.status ≡ 6))) }

    // The generated workload is run with nothing read, unless something failed or memory ran out.
    ensures made { IfOk words (λ words. asks_for_made (asked_by words.items) ≡ true →
        ¬ Rose (K.faults out.old) (K.faults out.new) → (result.status ≡ 0) ⊎ (result.status ≡ 6)) }
    ensures unread_made { IfOk words (λ words. asks_for_made (asked_by words.items) ≡ true →
        Keeps (S.left source.old) (S.left source.new)) }

    // The error sink gets nothing at 0, and else the line of the status.
    ensures quiet { result.status ≡ 0 → Keeps (E.held err.old) (E.held err.new) }
    ensures told { result.status ≢ 0 → result.status ≢ 3 →
        TellsLine (E.held err.old) (E.held err.new) (E.faults err.old) (E.faults err.new) (status_line result.status) }

    // Faults are only counted up.
    ensures source_faults { S.faults source.old ≤ S.faults source.new }
    ensures out_faults { K.faults out.old ≤ K.faults out.new }
    ensures err_faults { E.faults err.old ≤ E.faults err.new }
{
    let Ok(words) = words else {
        let _ = write_all(err, b"riptide: no memory\n");
        return Ended {
            status: 6,
            outcome: None,
        };
    };
    let words = words.as_slice();
    riptide(rt, THREADS, alloc, words, source, out, err, &FreePass)
}
