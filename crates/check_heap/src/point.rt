//! A point at which a participant meets the turnstile, and how it is told. It holds nobody.

use crate::reading::number;
use std::sync::atomic::{AtomicU32, Ordering};
use tide_model::Place;

/// Where a participant meets the turnstile: who, at which place, with the number of its call, the cell or the block
/// there, and in which of its calls, if that is told. A visitor's number is 16 and more, and its call's is 0.
#[derive(Drop)]
pub struct Point {
    who: u32,
    place: Place,
    what: u32,
    in_call: Option<u32>,
    /// The call that the participant came to last.
    last_call: AtomicU32,
}

/// The place that a word names.
fn place_of(word: &str) -> Option<Place> {
    match word {
        "call" => Some(Place::Call),
        "linked" => Some(Place::Linked),
        "nuked" => Some(Place::Nuked),
        "stored" => Some(Place::Stored),
        "taken" => Some(Place::Taken),
        "blackened" => Some(Place::Blackened),
        "scanned" => Some(Place::Scanned),
        _ => None,
    }
}

impl Point {
    /// The point of these words, in whichever call or in this one.
    fn new(who: &str, place: &str, what: &str, in_call: Option<u32>) -> Option<Point> {
        Some(Point {
            who: number(who)?,
            place: place_of(place)?,
            what: number(what)?,
            in_call,
            last_call: AtomicU32::new(0),
        })
    }

    /// The point that some words begin with, and the words behind it. It is `WHO PLACE WHAT`, or
    /// `WHO PLACE WHAT in call CALL` where a participant comes to a place with that cell or block in several calls.
    pub fn first_of<'a, 'b>(words: &'a [&'b str]) -> Option<(Point, &'a [&'b str])> {
        let [who, place, what, behind @ ..] = words else {
            return None;
        };
        if let ["in", "call", call, behind @ ..] = behind {
            let point = Point::new(who, place, what, Some(number(call)?))?;
            return Some((point, behind));
        }
        let point = Point::new(who, place, what, None)?;
        Some((point, behind))
    }

    /// Before a run: nobody has come to any call.
    pub fn begin(&self) {
        self.last_call.store(0, Ordering::SeqCst);
    }

    /// Whether its participant is in the call that is told.
    fn is_in_call(&self) -> bool {
        match self.in_call {
            Some(call) => self.last_call.load(Ordering::SeqCst) == call,
            None => true,
        }
    }

    /// Hears that a participant comes to a place, and answers whether it is at this point now.
    pub fn is_met(&self, who: u32, place: Place, what: u32) -> bool {
        if who != self.who {
            return false;
        }
        if place == Place::Call {
            self.last_call.store(what, Ordering::SeqCst);
        }
        place == self.place && what == self.what && self.is_in_call()
    }
}
