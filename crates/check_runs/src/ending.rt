//! How a run ended, and the texts of it.
ghost use Rattle.std.specs.Prelude.{◌≡◌, true};

use crate::outcomes::ALL_APART;
use check_heap::{joined, number_between, number_text, text};
use std::alloc::{AllocError, Global};
use std::marker::Sync;
use std::thread::Threads;
use tide_io::{MemSink, Source};
use tide_model::Turnstile;
use tide_run::riptide;

/// How a run ended.
#[derive(Drop)]
pub struct Ending {
    status: u8,
    has_outcome: bool,
    out: MemSink,
    err: MemSink,
}

impl Ending {
    /// Runs the program with these words, on what a source gives and to these sinks, with this turnstile.
    pub fn over<R: Threads + Sync, S: Source, T: Turnstile>(
        rt: &R,
        alloc: Global,
        words: &[String],
        source: &mut S,
        mut out: MemSink,
        mut err: MemSink,
        turnstile: &T,
    ) -> Self {
        let ended = riptide(
            rt, ALL_APART, alloc, words, source, &mut out, &mut err, turnstile,
        );
        Ending {
            status: ended.status,
            has_outcome: ended.outcome.is_some(),
            out,
            err,
        }
    }

    /// What stands on the error output.
    fn told(&self) -> &str {
        std::str::from_utf8(self.err.held()).unwrap_or("no text")
    }

    /// The status, and whether there is an outcome.
    pub fn status_text(&self, alloc: Global) -> Result<String, AllocError> {
        let outcome = if self.has_outcome {
            " with an outcome"
        } else {
            ""
        };
        number_between(alloc, "", u64::from(self.status), outcome)
    }

    /// How much was printed of a text: all, nothing or so many first bytes.
    pub fn printed_text(&self, alloc: Global, whole: &[u8]) -> Result<String, AllocError> {
        let printed = self.out.held();
        if printed.is_empty() {
            text(alloc, "nothing")
        } else if printed == whole {
            text(alloc, "all")
        } else if whole.starts_with(printed) {
            number_text(alloc, printed.len() as u64)
        } else {
            text(alloc, "something else")
        }
    }

    /// What was told, which is to be a whole line.
    pub fn told_text(&self, alloc: Global) -> Result<String, AllocError> {
        match self.told().strip_suffix("\n") {
            Some(line) => text(alloc, line),
            None if self.told().is_empty() => text(alloc, "nothing"),
            None => joined(alloc, &[self.told(), ", cut off"]),
        }
    }

    /// Whether the run ended with a write fault, its line, and just these bytes printed.
    pub fn is_write_fault(&self, printed: &[u8]) -> bool
        ensures { result ≡ true → self.now.out.held ≡ printed.now }
    {
        self.status == 5 && self.told() == "riptide: write fault\n" && self.out.held() == printed
    }
}
