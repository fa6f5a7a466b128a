//! A run whose source and sinks give and take ten bytes a call, and fail where they are told to, and whose participants
//! are held where they are told to.
//!
//! The lines of a row: `workload NAME` or lines `document LINE` are what there is to read, `text NAME` what is to be
//! printed where that isn't the workload's text (a NAME is one of the shelf, `shelf.rt`), `behind LINE` is one more
//! line of that, `words WORDS` are those of the command line, which is `riptide` alone where none are given (`''` is
//! the empty word); `pieces BYTES` says how many bytes are given and taken a call, `reads fail CALLS`,
//! `prints fail CALLS` and `tells fail CALLS` which calls fail, from 0, and `room BYTES` how much may be printed.
//! `hold POINT until POINT` holds a participant at a point until another has come to one, in each of the runs below it:
//! what a point is stands in the README of `check_heap`. Then
//!
//! - `run` is answered with the status, and with an outcome where there is one; `run short of room` with `write faults`
//!   where each room less than the text needs ends with one, and with as many first bytes of the text;
//! - `printed` is answered with how much of the workload's text was: `all`, `nothing` or so many first bytes, `told`
//!   with the line on the error output, and `, cut off` where it has no end; `left` with how many bytes weren't read,
//!   or `all`;
//! - `held` is answered with the numbers of the holds that were kept in the last run, from 0;
//! - `plain` and `in threads` run the workload by `plain` and `run`, the second also `with N visitors`, and are
//!   answered with its calls, its cycles, what lives then and how many races were met.
//!
//! A run in which a hold was given up is answered with that besides, so that no row that says nothing of it passes.

use crate::ending::Ending;
use crate::outcomes::{in_threads, in_turn};
use crate::shelf::Shelf;
use check_heap::{Holds, large_number, large_numbers, number, number_between, number_text, text};
use std::alloc::{AllocError, Global};
use std::marker::Sync;
use std::thread::Threads;
use tide_io::{MemSink, MemSource, read_up_to};
use tide_workload::{MAX_BYTES, Workload, read};

/// How many bytes there is room for on the error output.
const TOLD: usize = 100;

/// The calls of the source and of the two sinks that fail.
#[derive(Drop)]
struct Faults {
    reads: Vec<u64>,
    prints: Vec<u64>,
    tells: Vec<u64>,
}

/// What is to be run, and how it ended once it was.
#[derive(Drop)]
pub struct Trial<'a> {
    shelf: &'a Shelf,
    document: Vec<u8>,
    /// The text that its run prints.
    printed: Vec<u8>,
    words: Vec<String>,
    faults: Faults,
    /// How many bytes the source gives and each sink takes a call, at least one.
    piece: usize,
    room: usize,
    holds: Holds,
    ended: Option<Ending>,
    /// How many bytes the run left.
    left: usize,
}

/// The words of a command line.
fn command_line(alloc: Global, words: &[&str]) -> Result<Vec<String>, AllocError> {
    let mut all = Vec::new(alloc);
    for word in words {
        let word = if *word == "''" { "" } else { word };
        all.push(text(alloc, word)?)?;
    }
    Ok(all)
}

/// An empty sink with so much room, which takes a piece a call, and whose calls with these numbers fail.
fn sink(alloc: Global, room: usize, piece: usize, fails: &[u64]) -> Result<MemSink, AllocError> {
    let fails = fails.to_vec(alloc)?;
    match MemSink::new(alloc, room, piece.max(1), fails) {
        Ok(sink) => Ok(sink),
        Err(_) => Err(AllocError),
    }
}

/// How many bytes a source still gives.
fn left_of(alloc: Global, source: &mut MemSource) -> usize {
    match read_up_to(alloc, source, MAX_BYTES) {
        Ok(rest) => rest.len(),
        Err(_) => 0,
    }
}

impl Faults {
    /// No call fails.
    fn none(alloc: Global) -> Self {
        Faults {
            reads: Vec::new(alloc),
            prints: Vec::new(alloc),
            tells: Vec::new(alloc),
        }
    }

    /// Takes which calls fail of the source or a sink. `None` where the words tell none.
    fn set(&mut self, alloc: Global, who: &str, calls: &[&str]) -> Result<Option<()>, AllocError> {
        let Some(calls) = large_numbers(alloc, calls)? else {
            return Ok(None);
        };
        match who {
            "reads" => self.reads = calls,
            "prints" => self.prints = calls,
            "tells" => self.tells = calls,
            _ => return Ok(None),
        }
        Ok(Some(()))
    }
}

// What is to be run.
impl<'a> Trial<'a> {
    /// Before the first line of a row.
    pub fn begin(alloc: Global, shelf: &'a Shelf) -> Result<Self, AllocError> {
        let words = command_line(alloc, &["riptide"])?;
        Ok(Trial {
            shelf,
            document: Vec::new(alloc),
            printed: Vec::new(alloc),
            words,
            faults: Faults::none(alloc),
            piece: 10,
            room: 10_000,
            holds: Holds::none(alloc),
            ended: None,
            left: 0,
        })
    }

    /// Takes a workload and its text.
    fn take_workload(&mut self, alloc: Global, name: &str) -> Result<bool, AllocError> {
        let Some(stored) = self.shelf.find(name) else {
            return Ok(false);
        };
        self.document = stored.document().to_vec(alloc)?;
        self.printed = stored.printed().to_vec(alloc)?;
        Ok(true)
    }

    /// Takes the text of a workload in place of that of what is read.
    fn take_text(&mut self, alloc: Global, name: &str) -> Result<bool, AllocError> {
        let Some(stored) = self.shelf.find(name) else {
            return Ok(false);
        };
        self.printed = stored.printed().to_vec(alloc)?;
        Ok(true)
    }

    /// Takes a line of a document, of words with a space between.
    fn take_line(&mut self, line: &[&str]) -> Result<bool, AllocError> {
        let mut space = "";
        for word in line {
            self.document.extend_from_slice(space.as_bytes())?;
            self.document.extend_from_slice(word.as_bytes())?;
            space = " ";
        }
        self.document.push(b'\n')?;
        Ok(true)
    }

    /// Takes one more line behind the text.
    fn take_behind(&mut self, line: &[&str]) -> Result<bool, AllocError> {
        let mut is_first = true;
        for word in line {
            if !is_first {
                self.printed.push(b' ')?;
            }
            self.printed.extend_from_slice(word.as_bytes())?;
            is_first = false;
        }
        self.printed.push(b'\n')?;
        Ok(true)
    }

    /// Takes what is to be read, and what is to be printed of it.
    fn take(&mut self, alloc: Global, words: &[&str]) -> Result<bool, AllocError> {
        match words {
            ["workload", name] => self.take_workload(alloc, name),
            ["text", name] => self.take_text(alloc, name),
            ["document", line @ ..] => self.take_line(line),
            ["behind", line @ ..] => self.take_behind(line),
            _ => Ok(false),
        }
    }

    /// Takes how much room there is.
    fn set_room(&mut self, room: &str) -> Option<()> {
        self.room = large_number(room)? as usize;
        Some(())
    }

    /// Takes how many bytes are given and taken a call.
    fn set_piece(&mut self, piece: &str) -> Option<()> {
        self.piece = large_number(piece)? as usize;
        Some(())
    }

    /// Takes the words of the command line.
    fn set_words(&mut self, alloc: Global, words: &[&str]) -> Result<Option<()>, AllocError> {
        self.words = command_line(alloc, words)?;
        Ok(Some(()))
    }

    /// Takes which calls fail, how much room there is, and the words of the command line.
    fn set(&mut self, alloc: Global, words: &[&str]) -> Result<Option<()>, AllocError> {
        match words {
            [who, "fail", calls @ ..] => self.faults.set(alloc, who, calls),
            ["room", room] => Ok(self.set_room(room)),
            ["pieces", piece] => Ok(self.set_piece(piece)),
            ["words", words @ ..] => self.set_words(alloc, words),
            ["hold", words @ ..] => self.holds.add(words),
            _ => Ok(None),
        }
    }
}

// Its runs.
impl<'a> Trial<'a> {
    /// A source of what is to be read.
    fn source(&self, alloc: Global) -> Result<MemSource, AllocError> {
        let document = self.document.as_slice().to_vec(alloc)?;
        let reads = self.faults.reads.as_slice().to_vec(alloc)?;
        Ok(MemSource::new(document, self.piece.max(1), reads))
    }

    /// Runs the program on what a source gives, with so much room to print.
    fn run<R: Threads + Sync>(
        &self,
        rt: &R,
        alloc: Global,
        source: &mut MemSource,
        room: usize,
    ) -> Result<Ending, AllocError> {
        let out = sink(alloc, room, self.piece, self.faults.prints.as_slice())?;
        let err = sink(alloc, TOLD, self.piece, self.faults.tells.as_slice())?;
        let words = self.words.as_slice();
        self.holds.begin();
        Ok(Ending::over(rt, alloc, words, source, out, err, &self.holds))
    }

    /// Runs the program, and answers with its status.
    fn run_once<R: Threads + Sync>(&mut self, rt: &R, alloc: Global) -> Result<String, AllocError> {
        let mut source = self.source(alloc)?;
        let ended = self.run(rt, alloc, &mut source, self.room)?;
        self.left = left_of(alloc, &mut source);
        let status = ended.status_text(alloc)?;
        self.ended = Some(ended);
        self.holds.answered(alloc, status)
    }

    /// Whether the program ends with a write fault where there is just room for this first part of its text.
    fn falls_short<R: Threads + Sync>(
        &self,
        rt: &R,
        alloc: Global,
        first: &[u8],
    ) -> Result<bool, AllocError> {
        let mut source = self.source(alloc)?;
        let ended = self.run(rt, alloc, &mut source, first.len())?;
        Ok(ended.is_write_fault(first))
    }

    /// Runs the program with each room that is too small for its text, and answers with the first that doesn't end with
    /// the line of a write fault and as many first bytes of the text, if one doesn't.
    fn run_short_of_room<R: Threads + Sync>(
        &self,
        rt: &R,
        alloc: Global,
    ) -> Result<String, AllocError> {
        for room in 0..self.printed.len() {
            if !self.falls_short(rt, alloc, &self.printed[..room])? {
                return number_between(alloc, "otherwise at ", room as u64, "");
            }
        }
        text(alloc, "write faults")
    }

    /// Runs a workload by `run` with as many visitors as a word says, and answers with its outcome.
    fn run_beside<R: Threads + Sync>(
        &self,
        rt: &R,
        alloc: Global,
        load: &Workload,
        visitors: &str,
    ) -> Result<Option<String>, AllocError> {
        match number(visitors) {
            Some(count) if count <= 8 => {
                self.holds.begin();
                let outcome = in_threads(rt, alloc, load, count as u8, &self.holds)?;
                Ok(Some(self.holds.answered(alloc, outcome)?))
            }
            _ => Ok(None),
        }
    }

    /// Runs a workload by itself, as words say, and answers with its outcome.
    fn run_alone<R: Threads + Sync>(
        &self,
        rt: &R,
        alloc: Global,
        load: &Workload,
        words: &[&str],
    ) -> Result<Option<String>, AllocError> {
        match words {
            ["plain"] => Ok(Some(in_turn(alloc, load)?)),
            ["in", "threads"] => self.run_beside(rt, alloc, load, "0"),
            ["in", "threads", "with", visitors, "visitors"] => {
                self.run_beside(rt, alloc, load, visitors)
            }
            _ => Ok(None),
        }
    }

    /// Runs what is to be read by itself, if it is a workload.
    fn read_and_run<R: Threads + Sync>(
        &self,
        rt: &R,
        alloc: Global,
        words: &[&str],
    ) -> Result<Option<String>, AllocError> {
        match read(alloc, self.document.as_slice()) {
            Ok(load) => self.run_alone(rt, alloc, &load, words),
            Err(_) => Ok(None),
        }
    }
}

// What a line says.
impl<'a> Trial<'a> {
    /// How many bytes the run left.
    fn left_text(&self, alloc: Global) -> Result<String, AllocError> {
        if self.left == self.document.len() {
            return text(alloc, "all");
        }
        number_text(alloc, self.left as u64)
    }

    /// What was printed or told by the run that ended.
    fn told(&self, alloc: Global, what: &str) -> Result<Option<String>, AllocError> {
        let Some(ended) = &self.ended else {
            return Ok(None);
        };
        let answer = match what {
            "printed" => ended.printed_text(alloc, self.printed.as_slice())?,
            "told" => ended.told_text(alloc)?,
            _ => return Ok(None),
        };
        Ok(Some(answer))
    }

    /// Does what a line says that takes nothing, and answers it.
    fn asked<R: Threads + Sync>(
        &mut self,
        rt: &R,
        alloc: Global,
        words: &[&str],
    ) -> Result<Option<String>, AllocError> {
        let answer = match words {
            ["run"] => self.run_once(rt, alloc)?,
            ["run", "short", "of", "room"] => self.run_short_of_room(rt, alloc)?,
            ["held"] => self.holds.kept_text(alloc)?,
            ["left"] => self.left_text(alloc)?,
            [what @ ("printed" | "told")] => return self.told(alloc, what),
            _ => return self.read_and_run(rt, alloc, words),
        };
        Ok(Some(answer))
    }

    /// Does what the words of a line say, and answers it.
    pub fn answer<R: Threads + Sync>(
        &mut self,
        rt: &R,
        alloc: Global,
        words: &[&str],
    ) -> Result<Option<String>, AllocError> {
        if self.take(alloc, words)? || self.set(alloc, words)?.is_some() {
            return Ok(Some(text(alloc, "")?));
        }
        self.asked(rt, alloc, words)
    }
}
