//! A turnstile that holds mutators and visitors, so that a row fixes an interleaving. It changes nothing of a store.
//!
//! A hold keeps one participant at a point until another has come to another point, however long ago in the same run.
//! It lasts at most `TURNS` turns. Then it is given up: from there on nobody is held in that run, and what the run is
//! answered with says so, so that its row fails. A hold until its own point ends at once, and tells that the point was
//! met.

use crate::point::Point;
use crate::texts::{joined, numbers_text};
use std::alloc::{AllocError, Global};
use std::sync::atomic::{AtomicBool, Ordering};
use std::thread;
use tide_model::{Place, Turnstile};

/// How many turns a hold lasts at most. In each the processor is left to others.
const TURNS: u32 = 100_000_000;

/// One participant is held at a point until another has come to another.
#[derive(Drop)]
struct Hold {
    at: Point,
    until: Point,
    /// Whether the other has come to its point.
    has_come: AtomicBool,
    /// Whether the one was at its point, and went on as the other had come.
    is_kept: AtomicBool,
    /// Whether the one went on though the other hadn't come.
    is_given_up: AtomicBool,
}

/// The holds of a row.
#[derive(Drop)]
pub struct Holds {
    holds: Vec<Hold>,
    /// Whether one was given up in this run.
    is_over: AtomicBool,
}

/// The hold that words tell: a point, `until` and another point.
fn hold_of(words: &[&str]) -> Option<Hold> {
    let (at, behind) = Point::first_of(words)?;
    let ["until", behind @ ..] = behind else {
        return None;
    };
    let (until, behind) = Point::first_of(behind)?;
    if !behind.is_empty() {
        return None;
    }
    Some(Hold {
        at,
        until,
        has_come: AtomicBool::new(false),
        is_kept: AtomicBool::new(false),
        is_given_up: AtomicBool::new(false),
    })
}

impl Hold {
    /// Before a run.
    fn begin(&self) {
        self.at.begin();
        self.until.begin();
        self.has_come.store(false, Ordering::SeqCst);
        self.is_kept.store(false, Ordering::SeqCst);
        self.is_given_up.store(false, Ordering::SeqCst);
    }

    /// Hears that a participant comes to a place, and notes it where that is the point that the hold waits for.
    fn note(&self, who: u32, place: Place, what: u32) {
        if self.until.is_met(who, place, what) {
            self.has_come.store(true, Ordering::SeqCst);
        }
    }

    /// Waits until the other has come to its point, or the hold is given up, or another one was.
    fn wait(&self, is_over: &AtomicBool) {
        for _turn in 0..TURNS {
            if self.has_come.load(Ordering::SeqCst) {
                self.is_kept.store(true, Ordering::SeqCst);
                return;
            }
            if is_over.load(Ordering::SeqCst) {
                return;
            }
            thread::yield_now();
        }
        self.is_given_up.store(true, Ordering::SeqCst);
        is_over.store(true, Ordering::SeqCst);
    }
}

impl Holds {
    /// No hold.
    pub fn none(alloc: Global) -> Holds {
        Holds {
            holds: Vec::new(alloc),
            is_over: AtomicBool::new(false),
        }
    }

    /// One more, by its words. `None` where they tell none.
    pub fn add(&mut self, words: &[&str]) -> Result<Option<()>, AllocError> {
        match hold_of(words) {
            Some(hold) => {
                self.holds.push(hold)?;
                Ok(Some(()))
            }
            None => Ok(None),
        }
    }

    /// Before a run: nobody has come to any point.
    pub fn begin(&self) {
        for hold in self.holds.as_slice() {
            hold.begin();
        }
        self.is_over.store(false, Ordering::SeqCst);
    }

    /// The numbers of the holds that were kept in the last run, from 0.
    pub fn kept_text(&self, alloc: Global) -> Result<String, AllocError> {
        let mut kept = Vec::new(alloc);
        let mut index = 0u32;
        for hold in self.holds.as_slice() {
            if hold.is_kept.load(Ordering::SeqCst) {
                kept.push(index)?;
            }
            index = index.saturating_add(1);
        }
        numbers_text(alloc, kept.as_slice())
    }

    /// The numbers of the holds that were given up in the last run, from 0.
    fn given_up_text(&self, alloc: Global) -> Result<String, AllocError> {
        let mut given_up = Vec::new(alloc);
        let mut index = 0u32;
        for hold in self.holds.as_slice() {
            if hold.is_given_up.load(Ordering::SeqCst) {
                given_up.push(index)?;
            }
            index = index.saturating_add(1);
        }
        numbers_text(alloc, given_up.as_slice())
    }

    /// What a run is answered with: that text, and behind it which holds were given up, if one was.
    pub fn answered(&self, alloc: Global, answer: String) -> Result<String, AllocError> {
        if !self.is_over.load(Ordering::SeqCst) {
            return Ok(answer);
        }
        let given_up = self.given_up_text(alloc)?;
        joined(alloc, &[answer.as_str(), ", given up: ", given_up.as_str()])
    }
}

impl Turnstile for Holds {
    /// All holds hear of it before one holds: who comes may be waited for by another.
    fn at(&self, who: u32, place: Place, what: u32) {
        for hold in self.holds.as_slice() {
            hold.note(who, place, what);
        }
        for hold in self.holds.as_slice() {
            if hold.at.is_met(who, place, what) {
                hold.wait(&self.is_over);
            }
        }
    }
}
