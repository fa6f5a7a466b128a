//! What the threads of a row tell, and where the first calls of two members meet.

use std::sync::Wait;
use std::sync::atomic::{AtomicU64, Ordering};
use std::thread;
use tide::{Place, Turnstile};

/// How many turns a first call is held at most. In each the processor is left to others.
const TURNS: u32 = 100_000_000;

/// Waits until a number is so high. The processor is left to others meanwhile.
fn await_count<R: Wait>(rt: &R, number: &AtomicU64, least: u64) {
    for _ in rt.forever() {
        if number.load(Ordering::SeqCst) >= least {
            return;
        }
        thread::yield_now();
    }
    unreachable!()
}

/// What the threads of a row have told so far.
#[derive(Drop)]
pub struct Tally {
    /// The first calls of two members are held until both have come.
    meets: bool,
    /// How many of them ended otherwise than expected.
    wrong: AtomicU64,
    /// The parts that helpers took part in, all together.
    parts: AtomicU64,
    /// How many members have left.
    left: AtomicU64,
    /// How often members lay down, all together.
    lain: AtomicU64,
    /// How often the keeper has gone round the beds.
    rounds: AtomicU64,
    /// Whether each of the first two members has come to its first call.
    come: [AtomicU64; 2],
}

impl Tally {
    /// Nobody has told anything.
    pub fn new(meets: bool) -> Tally {
        Tally {
            meets,
            wrong: AtomicU64::new(0),
            parts: AtomicU64::new(0),
            left: AtomicU64::new(0),
            lain: AtomicU64::new(0),
            rounds: AtomicU64::new(0),
            come: [AtomicU64::new(0), AtomicU64::new(0)],
        }
    }

    /// One ended otherwise than expected.
    pub fn add_wrong(&self) {
        self.wrong.fetch_add(1, Ordering::SeqCst);
    }

    /// A helper took part in a part.
    pub fn add_part(&self) {
        self.parts.fetch_add(1, Ordering::SeqCst);
    }

    /// A member has left.
    pub fn add_left(&self) {
        self.left.fetch_add(1, Ordering::SeqCst);
    }

    /// A member has lain down.
    pub fn add_lain(&self) {
        self.lain.fetch_add(1, Ordering::SeqCst);
    }

    /// The keeper has gone round the beds.
    pub fn add_round(&self) {
        self.rounds.fetch_add(1, Ordering::SeqCst);
    }

    /// Whether all ended as expected, as far as they have told.
    pub fn is_right(&self) -> bool {
        self.wrong.load(Ordering::SeqCst) == 0
    }

    /// In how many parts helpers took part, all together.
    pub fn parts(&self) -> u64 {
        self.parts.load(Ordering::SeqCst)
    }

    /// Whether some member has left.
    pub fn has_one_left(&self) -> bool {
        self.left.load(Ordering::SeqCst) > 0
    }

    /// Waits until so many members have left.
    pub fn await_left<R: Wait>(&self, rt: &R, members: u64) {
        await_count(rt, &self.left, members);
    }

    /// Waits until members have lain down so often, all together.
    pub fn await_lain<R: Wait>(&self, rt: &R, times: u64) {
        await_count(rt, &self.lain, times);
    }

    /// Waits until the keeper has gone round the beds so often.
    pub fn await_rounds<R: Wait>(&self, rt: &R, rounds: u64) {
        await_count(rt, &self.rounds, rounds);
    }

    /// Waits until helpers took part in so many parts, all together.
    pub fn await_parts<R: Wait>(&self, rt: &R, parts: u64) {
        await_count(rt, &self.parts, parts);
    }
}

impl Turnstile for Tally {
    /// Where the row says so, the first calls of two members are held until both have come.
    fn at(&self, who: u32, place: Place, _what: u32) {
        if !self.meets || place != Place::Call || who > 1 {
            return;
        }
        self.come[who as usize].store(1, Ordering::SeqCst);
        let other = &self.come[1 - who as usize];
        for _turn in 0..TURNS {
            if other.load(Ordering::SeqCst) == 1 {
                return;
            }
            thread::yield_now();
        }
        self.add_wrong();
    }
}
