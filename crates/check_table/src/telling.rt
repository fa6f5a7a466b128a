//! What the checks tell.

use crate::chains::Marked;
use crate::freezing::Runs;
use crate::rows::{PairRun, PartTold, called_parts, one_part, two_parts};
use crate::standing::{freeze_single, heap_of_facts, mark_chain};
use crate::working::LoadedWords;
use check_heap::{number_text, tell, text, word_text};
use std::alloc::{AllocError, Global};
use tide_heap::{Report, Solved};
use tide_model::Memory;
use tide_table::Numbers;

/// What stands in a line behind a text.
#[derive(Clone, Copy)]
enum Piece {
    Nothing,
    Number(u64),
    /// A word of a heap, in the text of what it says.
    Word(u64),
    Truth(bool),
}

/// The text of a piece.
fn piece_text(alloc: Global, piece: Piece) -> Result<String, AllocError> {
    match piece {
        Piece::Nothing => text(alloc, ""),
        Piece::Number(number) => number_text(alloc, number),
        Piece::Word(word) => word_text(alloc, word),
        Piece::Truth(true) => text(alloc, "yes"),
        Piece::Truth(false) => text(alloc, "no"),
    }
}

/// A line of pieces, each behind its text.
fn line_of(alloc: Global, pieces: &[(&str, Piece)]) -> Result<String, AllocError> {
    let mut line = String::new(alloc);
    for (before, piece) in pieces {
        line.push_str(before)?;
        let one = piece_text(alloc, *piece)?;
        line.push_str(one.as_str())?;
    }
    Ok(line)
}

/// Tells a line of pieces, each behind its text.
fn tell_pieces(
    alloc: Global,
    findings: &mut String,
    pieces: &[(&str, Piece)],
) -> Result<(), AllocError> {
    let line = line_of(alloc, pieces)?;
    tell(findings, &[line.as_str()])
}

/// A number of 32 bits.
fn number(number: u32) -> Piece {
    Piece::Number(u64::from(number))
}

/// The note of a mutator, whose ticket has this number, and how many calls its call word told.
fn note_pieces(period: u32, note: Numbers, calls: u64) -> [(&'static str, Piece); 11] {
    [
        ("mutator ", number(note.who)),
        (": part ", number(period)),
        (" ", number(note.part)),
        (" ", number(note.run)),
        (" ", number(note.begun)),
        (", counted ", number(note.born)),
        (" ", number(note.visits)),
        (", marks ", Piece::Truth(note.marking)),
        (", cycle ", Piece::Number(note.cycle)),
        (", left ", Piece::Truth(note.left)),
        (", calls ", Piece::Number(calls)),
    ]
}

/// The words that a mutator found.
fn found_pieces(found: LoadedWords) -> [(&'static str, Piece); 5] {
    [
        ("it found ", Piece::Word(found.register)),
        (" ", Piece::Word(found.strong)),
        (" ", Piece::Word(found.weak)),
        (", slot ", Piece::Word(found.slot)),
        (", claim ", Piece::Number(found.claim)),
    ]
}

/// Tells the cycles that ended.
fn tell_cycles(alloc: Global, findings: &mut String, report: &Report) -> Result<(), AllocError> {
    for line in report.cycles() {
        tell_pieces(
            alloc,
            findings,
            &[
                ("cycle ", Piece::Number(line.number)),
                (": kept ", number(line.kept)),
                (" freed ", number(line.freed)),
            ],
        )?;
    }
    Ok(())
}

/// Tells what both mutators told of a part: their notes, and the words that they found.
fn tell_both(alloc: Global, findings: &mut String, both: &[PartTold; 2]) -> Result<(), AllocError> {
    for one in both {
        tell_pieces(
            alloc,
            findings,
            &note_pieces(one.period, one.note, one.found.calls),
        )?;
        tell_pieces(alloc, findings, &found_pieces(one.found))?;
    }
    Ok(())
}

/// Tells what a row ran: what was told of its parts, and between them the cycles that ended.
fn tell_parts_of(alloc: Global, findings: &mut String, ran: &PairRun) -> Result<bool, AllocError> {
    if let Some(first) = &ran.first {
        tell_both(alloc, findings, first)?;
    }
    tell_cycles(alloc, findings, &ran.report)?;
    tell_both(alloc, findings, &ran.last)?;
    Ok(true)
}

/// Tells what a row ran, if it did.
fn tell_ran(
    alloc: Global,
    findings: &mut String,
    ran: Result<Option<PairRun>, Memory>,
) -> Result<bool, AllocError> {
    match &ran {
        Ok(Some(ran)) => tell_parts_of(alloc, findings, ran),
        _ => Ok(false),
    }
}

/// Runs one part of two mutators, and tells what they told.
pub fn tell_part(alloc: Global, findings: &mut String) -> Result<bool, AllocError> {
    tell_ran(alloc, findings, one_part(alloc))
}

/// Runs two parts of two mutators with a whole cycle between them, and tells the cycle and what the mutators told.
pub fn tell_parts(alloc: Global, findings: &mut String) -> Result<bool, AllocError> {
    tell_ran(alloc, findings, two_parts(alloc))
}

/// The same with calls in both parts.
pub fn tell_calls(alloc: Global, findings: &mut String) -> Result<bool, AllocError> {
    tell_ran(alloc, findings, called_parts(alloc))
}

/// How a pause ended.
fn pause_piece(solved: Option<Solved>) -> (&'static str, Piece) {
    match solved {
        Some(Solved::Converged { visits }) => (", converged ", number(visits)),
        Some(Solved::More { visits }) => (", more ", number(visits)),
        None => (", no cycle marks", Piece::Nothing),
    }
}

/// Marks the chain that facts say over a frozen heap.
fn marked_chain(alloc: Global, facts: &str, budgets: [u32; 2]) -> Result<Option<Marked>, Memory> {
    match heap_of_facts(alloc, facts) {
        Ok(Some(mut chain)) => mark_chain(alloc, &mut chain, budgets),
        Ok(None) => Ok(None),
        Err(_) => Err(Memory),
    }
}

/// Tells how the pauses of a chain ended.
fn tell_marked(alloc: Global, findings: &mut String, marked: Marked) -> Result<bool, AllocError> {
    let begun = ("begun ", Piece::Truth(marked.begun));
    tell_pieces(
        alloc,
        findings,
        &[begun, pause_piece(marked.first), pause_piece(marked.second)],
    )?;
    Ok(true)
}

/// Marks the chain that facts say over a frozen heap, and tells how its pauses ended.
pub fn tell_chain(
    alloc: Global,
    findings: &mut String,
    facts: &str,
    budgets: [u32; 2],
) -> Result<bool, AllocError> {
    match marked_chain(alloc, facts, budgets) {
        Ok(Some(marked)) => tell_marked(alloc, findings, marked),
        _ => Ok(false),
    }
}

/// Tells how many calls come next after each of two freezes, and the cycles that ended.
fn tell_runs(
    alloc: Global,
    findings: &mut String,
    runs: Runs,
    report: &Report,
) -> Result<bool, AllocError> {
    tell_pieces(
        alloc,
        findings,
        &[
            ("next runs ", number(runs.nothing_due)),
            (" ", number(runs.must)),
        ],
    )?;
    tell_cycles(alloc, findings, report)?;
    Ok(true)
}

/// Freezes twice, and tells how many calls come next after each, and the cycles that ended.
pub fn tell_freezes(alloc: Global, findings: &mut String) -> Result<bool, AllocError> {
    match freeze_single(alloc) {
        Ok(Some((runs, report))) => tell_runs(alloc, findings, runs, &report),
        _ => Ok(false),
    }
}
