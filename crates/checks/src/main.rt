//! The program `checks`: makes the checks that the lines of its input say, over the files of the folder that it is run
//! in.
//!
//! A line begins with a word that says which library makes its check. What stands behind it says which one, and is told
//! there. A word that ends in `.txt` is the name of a file, and the library is given the text of that in its place:
//!
//! - `plain CHECK`: on plain stores and shapes (`check_words`).
//! - `marking CHECK`: on heaps of words that are marked and collected (`check_words`).
//! - `table CHECK`: on the table of words that threads share (`check_table`).
//! - `snapshot CHECK`: on snapshots of heaps of words (`check_words`).
//! - `facts SETTINGS MEETINGS SEED COUNT`: the texts of so many workloads, from this seed on, which are drawn from
//!   these files, and judged (`check_runs`).
//! - `counts SETTINGS MEETINGS SEED COUNT`: the same, and tells how much the texts had.
//! - `runs ROWS WORKLOADS MADE`: rows of runs whose source and sinks fail where they are told to, and whose
//!   participants are held where they are told to, of the workloads of a list, and of the generated one whose summary
//!   is MADE (`check_runs`).
//! - `drains ROWS`: rows of cycles that a visitor marks beside a mutator (`check_threads`).
//! - `ways WORKLOADS`: a list of workloads, each of which comes to the same each way that it is run (`check_runs`).
//! - `ends ROWS`: rows of sources and sinks alone (`check_runs`).
//! - `shapes CHECK`: on tables of shapes that threads grow (`check_threads`).
//! - `embed`: two mutators on a heap of their own, each of which finds what it stored (`embed_heap`).
//! - `embed large BLOCKS`: a heap with so many blocks of each class, of which a mutator fills one (`embed_heap`).
//! - `embed shapes`: a heap over a table that two threads grew, whose mutator adds properties (`embed_heap`).
//! - `embed visitor`: a cycle that a visitor marks beside a mutator, and what it keeps (`embed_heap`).
//! - `embed weakref ROW`: a row of weak references and registrations, or the script whose files are closed
//!   (`embed_weakref`).
//! - `embed standing ROW`: a row of a standing heap, whose members, helpers and keeper each have a thread
//!   (`embed_standing`).
//!
//! Of each check it prints what ended otherwise than expected, once the check is over, and then a line. Where one was
//! not as expected, the status is 1. It may touch the libraries of checks, `embed_heap`, `embed_standing` and
//! `embed_weakref`, files and the outputs. The workloads and the refused documents of its folder `data` are run by
//! `.ci/workloads`.
#![tactic(auto)]

use check_heap::{check_rows, joined, number, text, words_of};
use check_runs::{Ends, Shelf, check_facts, check_runs, check_ways};
use check_table::check_table;
use check_threads::{check_drains, check_shapes};
use check_words::{check_marking, check_plain, check_snapshot, time_large, time_runs};
use embed_heap::{adds_in_order, both_find_seven, four_are_kept, is_read_back};
use embed_standing::check_standing;
use embed_weakref::check_weakref;
use std::alloc::{AllocError, Global};
use std::marker::Sync;
use std::process::ExitCode;
use std::rt::Runtime;
use std::sync::Wait;
use std::thread::Threads;
use std::{fs, io};

/// The workloads of a list, each with the text that its run prints.
fn shelf_of<R: Runtime + AllocGlobal>(rt: &R, list: &str) -> io::Result<Shelf> {
    let alloc = rt.alloc();
    let mut shelf = Shelf::new(alloc);
    for name in list.lines() {
        let document = fs::read_to_string(rt, joined(alloc, &["workloads/", name, ".toml"])?)?;
        let printed = fs::read_to_string(rt, joined(alloc, &["workloads/", name, ".txt"])?)?;
        shelf.add(text(alloc, name)?, document, printed)?;
    }
    Ok(shelf)
}

/// Does rows of runs, of the workloads of a list, and of the generated one with this summary, which they call
/// `make_7.txt`.
fn check_rows_of_runs<R: Runtime + AllocGlobal + Threads + Sync>(
    rt: &R,
    findings: &mut String,
    rows: &str,
    list: &str,
    made: &str,
) -> io::Result<bool> {
    let alloc = rt.alloc();
    let mut shelf = shelf_of(rt, list)?;
    shelf.add(
        text(alloc, "make_7.txt")?,
        text(alloc, "")?,
        text(alloc, made)?,
    )?;
    Ok(check_runs(rt, alloc, findings, &shelf, rows)?)
}

/// Whether all is read back of a heap with so many blocks of each class. None has more than 262,144.
fn is_large_read_back<R: Threads + Sync>(rt: &R, alloc: Global, blocks: &str) -> bool {
    match number(blocks) {
        Some(blocks) if blocks <= 262_144 => is_read_back(rt, alloc, blocks),
        _ => false,
    }
}

/// Makes a check that needs no thread, nor anything else of the system.
fn check_without_system(
    alloc: Global,
    findings: &mut String,
    words: &[&str],
) -> Result<bool, AllocError> {
    match words {
        ["plain", check @ ..] => check_plain(alloc, findings, check),
        ["marking", check @ ..] => check_marking(alloc, findings, check),
        ["table", check @ ..] => check_table(alloc, findings, check),
        ["snapshot", check @ ..] => check_snapshot(alloc, findings, check),
        ["ends", rows] => check_rows::<Ends>(alloc, findings, rows),
        _ => Ok(false),
    }
}

/// Makes the check that words say, in which the text of a file stands in place of its name.
fn check_words<R: Runtime + AllocGlobal + Threads + Wait + Sync>(
    rt: &R,
    findings: &mut String,
    words: &[&str],
) -> io::Result<bool> {
    let alloc = rt.alloc();
    match words {
        // the clock, which `check_marking` and `check_snapshot` aren't handed
        ["marking", "runs", kind, marked, times] => time_runs(rt, alloc, kind, marked, times),
        ["snapshot", "time", kind, blocks, times] => time_large(rt, alloc, kind, blocks, times),
        [what @ ("facts" | "counts"), settings, meetings, seed, count] => {
            let tells = *what == "counts";
            let all = check_facts(
                rt,
                alloc,
                findings,
                [settings, meetings],
                [seed, count],
                tells,
            )?;
            Ok(all)
        }
        ["runs", rows, list, made] => check_rows_of_runs(rt, findings, rows, list, made),
        ["drains", rows] => Ok(check_drains(rt, alloc, findings, rows)?),
        ["ways", list] => {
            let shelf = shelf_of(rt, list)?;
            Ok(check_ways(rt, alloc, findings, &shelf, list)?)
        }
        ["shapes", check @ ..] => Ok(check_shapes(rt, alloc, findings, check)?),
        ["embed"] => Ok(both_find_seven(rt, alloc)),
        ["embed", "visitor"] => Ok(four_are_kept(rt, alloc)),
        ["embed", "large", blocks] => Ok(is_large_read_back(rt, alloc, blocks)),
        ["embed", "shapes"] => Ok(adds_in_order(rt, alloc)),
        ["embed", "weakref", name] => Ok(check_weakref(alloc, name)),
        ["embed", "standing", name] => Ok(check_standing(rt, alloc, name)),
        _ => Ok(check_without_system(alloc, findings, words)?),
    }
}

/// What a word stands for: the text of a file, where it is the name of one, and else itself.
fn meant_by<R: Runtime + AllocGlobal>(rt: &R, word: &str) -> io::Result<String> {
    let name = text(rt.alloc(), word)?;
    if word.ends_with(".txt") {
        fs::read_to_string(rt, name)
    } else {
        Ok(name)
    }
}

/// What words stand for.
fn all_meant_by<R: Runtime + AllocGlobal>(rt: &R, words: &[&str]) -> io::Result<Vec<String>> {
    let mut all = Vec::new(rt.alloc());
    for word in words {
        all.push(meant_by(rt, word)?)?;
    }
    Ok(all)
}

/// Some texts, borrowed.
fn borrowed<'a>(alloc: Global, texts: &'a [String]) -> Result<Vec<&'a str>, AllocError> {
    let mut all = Vec::new(alloc);
    for text in texts {
        all.push(text.as_str())?;
    }
    Ok(all)
}

/// Makes the check of a line.
fn check<R: Runtime + AllocGlobal + Threads + Wait + Sync>(
    rt: &R,
    findings: &mut String,
    line: &str,
) -> io::Result<bool> {
    let alloc = rt.alloc();
    let meant = all_meant_by(rt, words_of(alloc, line)?.as_slice())?;
    check_words(rt, findings, borrowed(alloc, meant.as_slice())?.as_slice())
}

/// Makes the check of a line, prints what it found and how it ended, and answers whether that was as expected.
fn check_line<R: Runtime + AllocGlobal + Threads + Wait + Sync>(
    rt: &R,
    line: &str,
) -> io::Result<bool> {
    let mut findings = String::new(rt.alloc());
    let (is_so, end) = match check(rt, &mut findings, line) {
        Ok(true) => (true, "as expected"),
        Ok(false) => (false, "not as expected"),
        Err(_) => (false, "a file or memory is wanting"),
    };
    print!(rt; "{findings}")?;
    println!(rt; "{line}: {end}")?;
    Ok(is_so)
}

/// Makes the check of each line.
fn check_each<R: Runtime + AllocGlobal + Threads + Wait + Sync>(rt: &R) -> io::Result<bool> {
    let mut all = true;
    for line in rt.lines(rt.alloc()) {
        all = check_line(rt, line?.as_str())? && all;
    }
    Ok(all)
}

fn main(rt: HostRuntime) -> ExitCode {
    match check_each(&rt) {
        Ok(true) => ExitCode::SUCCESS,
        _ => ExitCode::from(1),
    }
}
