//! A sink in memory, which fails where it is told to.
ghost use Rattle.std.specs.Prelude.{◌≡◌, ◌↔◌, ◌<◌, ◌≤◌, [], Some, length, IfOk, IsErr, IsOk, OnErr};
ghost use Rattle.std.specs.Io.KnownBytes.{WriteAppends};
ghost use Rattle.tide_io.specs.Faults.{HasCause};

use crate::calls::Calls;
use crate::{Failed, Sink};
use std::alloc::Global;
use std::marker::Model;
use tide_model::Memory;

/// A sink in memory, which takes its bytes in steps, has room for so many, and fails where it is told to.
#[derive(Drop)]
pub struct MemSink {
    held: Vec<u8>,
    cap: usize,
    step: usize,
    calls: Calls,
}

impl Model for MemSink {
    ghost use Rattle.std.specs.Prelude.{ℕ, ◌<◌, ◌≤◌, length, vec_capacity};
    ghost use Rattle.tide_io.specs.MemSink.{SinkState};

    ghost Value = { SinkState };

    ghost view = { λ s. record { held = s.held.items; cap = s.cap; step = s.step; calls = s.calls } };

    ghost invariant = { λ s. (length s.held.items ≤ s.cap) × (s.cap ≤ vec_capacity s.held) × (0 < s.step) };
}

impl MemSink {
    ghost use Rattle.tide_io.specs.CallLog.{no_calls};

    /// An empty sink with room for `cap` bytes, so that no write takes memory. It takes at most `step` bytes a
    /// call. The calls with the numbers in `fails` fail, the first call being 0, and so do those when it is full.
    pub fn new(alloc: Global, cap: usize, step: usize, fails: Vec<u64>) -> Result<Self, Memory>
        requires { 1 ≤ step }
        ensures { IfOk result (λ sink.
            sink ≡ record { held = []; cap = cap; step = step; calls = no_calls fails.items }) }
    {
        let held = Vec::with_capacity(alloc, cap)?;
        Ok(MemSink {
            held,
            cap,
            step,
            calls: Calls::new(fails),
        })
    }

    /// The bytes that it took, in order.
    pub fn held(&self) -> &[u8]
        ensures { result.now ≡ self.now.held }
    {
        self.held.as_slice()
    }
}

impl Sink for MemSink {
    ghost use Rattle.tide_io.specs.MemSink.{after_failed_write, after_write, taken_count, RefusesNext};

    ghost held = { λ s. Some s.held };

    ghost waiting = { λ _. 0 };

    ghost faults = { λ s. s.calls.faults };

    fn write(&mut self, piece: &[u8]) -> Result<usize, Failed>
        requires { 0 < length piece.now }
        ensures taken { IfOk result (λ count. (0 < count) × (count ≤ length piece.now)) }
        ensures bytes { WriteAppends (Some self.old.held) (Some self.new.held) result piece.now }
        ensures cause { HasCause self.old.calls.faults self.new.calls.faults result }

        // What the sink is told, and its room, decide each call.
        ensures fails { IsErr result ↔ RefusesNext self.old }
        ensures count { IfOk result (λ count. count ≡ taken_count self.old (length piece.now)) }
        ensures after { IfOk result (λ count. self.new ≡ after_write self.old piece.now count) }
        ensures failed { OnErr result (self.new ≡ after_failed_write self.old) }
    {
        if self.calls.fails_next() || self.held.len() == self.cap {
            self.calls.fail();
            return Err(Failed);
        }
        self.calls.pass();
        let count = self.step.min(piece.len()).min(self.cap - self.held.len());
        self.held.extend_from_slice(&piece[..count]).unwrap();
        Ok(count)
    }

    /// Nothing waits here.
    fn flush(&mut self) -> Result<(), Failed>
        ensures { IsOk result × (self.new ≡ self.old) }
    {
        Ok(())
    }
}
