//! Words that a row has looked at while its second part runs, each when a participant comes to a point. A look changes
//! nothing and holds nobody.

use crate::drains::seen::Word;
use check_heap::{Holds, Point, text};
use std::alloc::{AllocError, Global};
use std::sync::atomic::{AtomicBool, AtomicU64, Ordering};
use tide_model::{Place, Turnstile};
use tide_shape::Shapes;
use tide_table::{Heap, HeapShapes};

/// A word that is looked at when a participant comes to a point for the first time.
#[derive(Drop)]
struct Look {
    at: Point,
    word: Word,
    /// Whether the participant has come there, and what the word was then.
    is_met: AtomicBool,
    found: AtomicU64,
}

/// The looks of a row.
#[derive(Drop)]
pub struct Looks {
    looks: Vec<Look>,
}

/// The look that words tell: a point, and the name of a word.
fn look_of(words: &[&str]) -> Option<Look> {
    let (at, behind) = Point::first_of(words)?;
    let [what, which] = behind else {
        return None;
    };
    Some(Look {
        at,
        word: Word::named(what, which)?,
        is_met: AtomicBool::new(false),
        found: AtomicU64::new(0),
    })
}

/// What a word of a heap is now, and 0 where the layout has none.
fn word_now<S: HeapShapes>(heap: &Heap<S>, word: Word) -> u64 {
    match word.place(heap.layout()) {
        Some(at) => heap.table.shared.peek(at),
        None => 0,
    }
}

impl Look {
    /// Looks at the word, if a participant comes to the point for the first time.
    fn make<S: HeapShapes>(&self, heap: &Heap<S>, who: u32, place: Place, what: u32) {
        if self.at.is_met(who, place, what) && !self.is_met.load(Ordering::SeqCst) {
            self.found
                .store(word_now(heap, self.word), Ordering::SeqCst);
            self.is_met.store(true, Ordering::SeqCst);
        }
    }

    /// What was found, as a row says it. The cycle that marks is the one of a colour.
    fn found_text(&self, alloc: Global, cycle: u64) -> Result<String, AllocError> {
        if self.is_met.load(Ordering::SeqCst) {
            self.word
                .found_text(alloc, self.found.load(Ordering::SeqCst), cycle)
        } else {
            text(alloc, "not met")
        }
    }
}

impl Looks {
    /// No look.
    pub fn none(alloc: Global) -> Looks {
        Looks {
            looks: Vec::new(alloc),
        }
    }

    /// One more, by its words. `None` where they tell none.
    pub fn add(&mut self, words: &[&str]) -> Result<Option<()>, AllocError> {
        match look_of(words) {
            Some(look) => {
                self.looks.push(look)?;
                Ok(Some(()))
            }
            None => Ok(None),
        }
    }

    /// What the look of a number found, from 0. `None` where there is no such look.
    pub fn found_text(
        &self,
        alloc: Global,
        number: u32,
        cycle: u64,
    ) -> Result<Option<String>, AllocError> {
        match self.looks.as_slice().get(number as usize) {
            Some(look) => Ok(Some(look.found_text(alloc, cycle)?)),
            None => Ok(None),
        }
    }
}

/// The turnstile of a row's second part: each who comes is looked after first, and then held.
#[derive(Clone, Copy)]
pub struct Watch<'a> {
    pub heap: &'a Heap<Shapes>,
    pub looks: &'a Looks,
    pub holds: &'a Holds,
}

impl<'a> Turnstile for Watch<'a> {
    /// The looks come before anybody hears of it who waits for this one.
    fn at(&self, who: u32, place: Place, what: u32) {
        for look in self.looks.looks.as_slice() {
            look.make(self.heap, who, place, what);
        }
        self.holds.at(who, place, what);
    }
}
