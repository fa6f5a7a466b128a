//! A source in memory, which fails where it is told to.
ghost use Rattle.std.specs.Prelude.{◌≡◌, ◌↔◌, ◌<◌, ◌≤◌, Some, min, take, length, IfOk, IsErr, OnErr};
ghost use Rattle.std.specs.Io.KnownBytes.{ReadConsumes};
ghost use Rattle.tide_io.specs.Faults.{HasCause};

use crate::calls::Calls;
use crate::{Failed, Source};
use std::marker::Model;

/// A source in memory, which gives its bytes in steps and fails where it is told to.
#[derive(Drop)]
pub struct MemSource {
    bytes: Vec<u8>,
    at: usize,
    step: usize,
    calls: Calls,
}

impl Model for MemSource {
    ghost use Rattle.std.specs.Prelude.{ℕ, ◌<◌, ◌≤◌, length, drop};
    ghost use Rattle.tide_io.specs.MemSource.{SourceState};

    ghost Value = { SourceState };

    ghost view = { λ s. record { left = drop s.at s.bytes.items; step = s.step; calls = s.calls } };

    ghost invariant = { λ s. (s.at ≤ length s.bytes.items) × (0 < s.step) };
}

impl MemSource {
    ghost use Rattle.tide_io.specs.CallLog.{no_calls};

    /// A source of these bytes. It gives at most `step` of them a call, and the calls with the numbers in
    /// `fails` fail, the first call being 0. It takes no memory.
    pub fn new(bytes: Vec<u8>, step: usize, fails: Vec<u64>) -> Self
        requires { 1 ≤ step }
        ensures { result ≡ record { left = bytes.items; step = step; calls = no_calls fails.items } }
    {
        MemSource {
            bytes,
            at: 0,
            step,
            calls: Calls::new(fails),
        }
    }
}

impl Source for MemSource {
    ghost use Rattle.tide_io.specs.CallLog.{FailsNext};
    ghost use Rattle.tide_io.specs.MemSource.{after_failed_read, after_read, given_count};

    ghost left = { λ s. Some s.left };

    ghost faults = { λ s. s.calls.faults };

    fn read(&mut self, buf: &mut [u8]) -> Result<usize, Failed>
        requires { 0 < length buf.old }
        ensures within { IfOk result (λ count. count ≤ length buf.new) }
        ensures bytes { ReadConsumes (Some self.old.left) (Some self.new.left) result buf.new }
        ensures cause { HasCause self.old.calls.faults self.new.calls.faults result }

        // What the source is told decides each call.
        ensures fails { IsErr result ↔ FailsNext self.old.calls }
        ensures count { IfOk result (λ count. count ≡ given_count self.old (length buf.old)) }
        ensures given { IfOk result (λ count. self.new ≡ after_read self.old count) }
        ensures failed { OnErr result (self.new ≡ after_failed_read self.old) }
    {
        if self.calls.fails_next() {
            self.calls.fail();
            return Err(Failed);
        }
        self.calls.pass();
        let count = copy_front(&self.bytes[self.at..], buf, self.step);
        self.at += count;
        Ok(count)
    }
}

// Copies the first bytes of `from` into the front of `to`, at most `most` of them, and answers their number.
fn copy_front(from: &[u8], to: &mut [u8], most: usize) -> usize
    ensures count { result ≡ min most (min (length to.old) (length from.now)) }
    ensures front { take result to.new ≡ take result from.now }
{
    let count = most.min(to.len()).min(from.len());
    to[..count].copy_from_slice(&from[..count]);
    count
}
