//! Writing in large pieces. It knows nothing of what the bytes say.
ghost use Rattle.std.specs.Prelude.{◌≡◌, ◌↔◌, ◌<◌, ◌≤◌, [], length, IfOk, IsTrue, OnOk};
ghost use Rattle.std.specs.Io.KnownBytes.{Keeps, WriteAppends};
ghost use Rattle.tide_io.specs.Faults.{HasCause};
ghost use Rattle.tide_io.specs.Gathering.{all_taken};

use crate::{Failed, Sink};
use arrayvec::ArrayVec;
use std::marker::Model;

/// How many bytes are gathered before they are handed on.
pub const PIECE: usize = 32_768;

/// A sink that gathers what it takes, and hands it on to another in pieces of `PIECE` bytes. What is left at the end
/// goes there by `flush`, and is lost without it.
#[derive(Drop)]
pub struct Gathered<K: Sink> {
    out: K,
    bytes: ArrayVec<u8, PIECE>,
    sent: usize,
}

impl<K: Sink> Model for Gathered<K> {
    ghost use Rattle.std.specs.Prelude.{◌-◌, ◌≤◌, drop, length};
    ghost use Rattle.tide_io.specs.Gathering.{GatherState};

    ghost Value = { GatherState };

    ghost view = { λ g. record {
      handed_on = K.held g.out;
      waiting = drop g.sent g.bytes.items;
      room = 32768 - length g.bytes.items;
      faults = K.faults g.out;
    } };

    ghost invariant = { λ g. (g.sent ≤ length g.bytes.items) × (length g.bytes.items ≤ 32768) };
}

impl<K: Sink> Gathered<K> {
    /// A sink that gathers for `out`.
    pub fn new(out: K) -> Self
        ensures { result ≡ record { handed_on = K.held out; waiting = []; room = 32768; faults = K.faults out } }
    {
        Gathered {
            out,
            bytes: ArrayVec::new(),
            sent: 0,
        }
    }

    /// Whether bytes wait.
    fn has_waiting(&self) -> bool
        ensures { IsTrue result ↔ (0 < length self.now.waiting) }
    {
        self.sent < self.bytes.len()
    }

    /// Hands on some first bytes of those that wait. All of them wait still where the sink failed.
    fn hand_on_some(&mut self) -> Result<(), Failed>
        requires { 0 < length self.old.waiting }
        ensures same { Keeps (all_taken self.old) (all_taken self.new) }
        ensures fewer { OnOk result (length self.new.waiting < length self.old.waiting) }
        ensures cause { HasCause self.old.faults self.new.faults result }
    {
        let count = self.out.write(&self.bytes.as_slice()[self.sent..])?;
        self.sent += count;
        Ok(())
    }

    /// Hands on all that waits. Where the sink failed, the rest waits still.
    fn hand_on(&mut self) -> Result<(), Failed>
        ensures same { Keeps (all_taken self.old) (all_taken self.new) }
        ensures all { OnOk result (length self.new.waiting ≡ 0) }
        ensures cause { HasCause self.old.faults self.new.faults result }
    {
        while self.has_waiting() {
            self.hand_on_some()?;
        }
        Ok(())
    }

    /// Hands on all that waits where there is no room for more.
    fn make_room(&mut self) -> Result<(), Failed>
        ensures same { Keeps (all_taken self.old) (all_taken self.new) }
        ensures room { OnOk result (0 < self.new.room) }
        ensures cause { HasCause self.old.faults self.new.faults result }
    {
        if self.bytes.is_full() {
            self.hand_on()?;
            self.bytes.clear();
            self.sent = 0;
        }
        Ok(())
    }
}

impl<K: Sink> Sink for Gathered<K> {
    ghost held = { λ g. all_taken g };

    ghost waiting = { λ g. length g.waiting };

    ghost faults = { λ g. g.faults };

    fn write(&mut self, piece: &[u8]) -> Result<usize, Failed>
        requires { 0 < length piece.now }
        ensures taken { IfOk result (λ count. (0 < count) × (count ≤ length piece.now)) }
        ensures bytes { WriteAppends (all_taken self.old) (all_taken self.new) result piece.now }
        ensures cause { HasCause self.old.faults self.new.faults result }
    {
        self.make_room()?;
        let count = piece.len().min(self.bytes.remaining_capacity());
        match self.bytes.try_extend_from_slice(&piece[..count]) {
            Ok(()) => Ok(count),
            Err(_) => unreachable!(),
        }
    }

    fn flush(&mut self) -> Result<(), Failed>
        ensures same { Keeps (all_taken self.old) (all_taken self.new) }
        ensures all { OnOk result (length self.new.waiting ≡ 0) }
        ensures cause { HasCause self.old.faults self.new.faults result }
    {
        self.hand_on()?;
        self.out.flush()
    }
}
