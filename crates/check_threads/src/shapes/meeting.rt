//! Where threads that grow a table meet. It changes nothing of the table.
//!
//! A thread that found a cell empty is held until another has found it empty too, at most `TURNS` turns; all threads
//! are held at the first cell of all until each has come to it, at most `FIRST_TURNS` turns. So several set one cell at
//! once.

use std::alloc::{AllocError, Global};
use std::sync::atomic::{AtomicU64, Ordering};
use std::thread;
use tide_grow_shape::GrowHook;

/// How many turns a hold lasts at most. In each the processor is left to others.
const TURNS: u32 = 50;

/// And that at the first cell.
const FIRST_TURNS: u32 = 10_000_000;

/// How many counts there are, each for the cells whose numbers leave the same rest.
const COUNTS: u32 = 8192;

/// The threads that came to cells.
#[derive(Drop)]
pub struct Meeting {
    threads: u64,
    /// How many came to the cells of a rest.
    come: Vec<AtomicU64>,
    /// How many went on as others had come.
    met: AtomicU64,
}

impl Meeting {
    /// Nobody has come.
    pub fn new(alloc: Global, threads: u32) -> Result<Meeting, AllocError> {
        let mut come = Vec::new(alloc);
        for _ in 0..COUNTS {
            come.push(AtomicU64::new(0))?;
        }
        Ok(Meeting {
            threads: threads as u64,
            come,
            met: AtomicU64::new(0),
        })
    }

    /// How many threads went on as others had come to the same cell.
    pub fn met(&self) -> u64 {
        self.met.load(Ordering::SeqCst)
    }

    /// Waits until so many have come, or the turns are over.
    fn wait(&self, come: &AtomicU64, threads: u64, turns: u32) {
        come.fetch_add(1, Ordering::SeqCst);
        for _turn in 0..turns {
            if come.load(Ordering::SeqCst) >= threads {
                self.met.fetch_add(1, Ordering::SeqCst);
                return;
            }
            thread::yield_now();
        }
    }
}

impl GrowHook for Meeting {
    fn at_empty(&self, shape: u32, next: bool) {
        let cell = (shape % (COUNTS / 2)) * 2 + next as u32;
        let Some(come) = self.come.get(cell as usize) else {
            return;
        };
        if shape == 0 && !next {
            self.wait(come, self.threads, FIRST_TURNS);
        } else {
            self.wait(come, 2, TURNS);
        }
    }
}
