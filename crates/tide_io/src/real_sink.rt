//! A sink over any writer of std.
ghost use Rattle.std.specs.Prelude.{◌≡◌, ◌+◌, ◌<◌, ◌≤◌, None, length, take, IfOk, IsOk, OnErr};
ghost use Rattle.std.specs.Io.KnownBytes.{Appends, Keeps, WriteAppends};
ghost use Rattle.tide_io.specs.CallLog.{one_more};
ghost use Rattle.tide_io.specs.Faults.{AppendsPart, HasCause};

use crate::{Failed, MAX_TRIES, Sink};
use std::io::{ErrorKind, Write};
use std::marker::Model;

/// A sink over a writer of std, which is flushed after each write. It tells nothing of the bytes that it holds.
///
/// A call that was interrupted is tried again, `MAX_TRIES` times in all. Each failure of the writer is counted, also
/// one after which it went on.
///
/// A write that takes nothing is a fault. So is a failed flush, and the writer may then have passed on some of
/// the bytes.
#[derive(Drop)]
pub struct RealSink<W: Write> {
    inner: W,
    faults: u64,
}

impl<W: Write> Model for RealSink<W> {
    ghost use Rattle.tide_io.specs.Adapter.{AdapterState};

    ghost Value = { AdapterState };

    ghost view = { λ s. record { known = W.contents s.inner; faults = s.faults } };
}

impl<W: Write> RealSink<W> {
    /// A sink that hands its bytes to this writer.
    pub fn new(inner: W) -> Self
        ensures { result ≡ record { known = W.contents inner; faults = 0 } }
    {
        RealSink { inner, faults: 0 }
    }

    /// One fault more.
    fn count_fault(&mut self)
        ensures counted { self.new.faults ≡ one_more self.old.faults }
        ensures later { self.old.faults ≤ self.new.faults }
        ensures same { self.new.known ≡ self.old.known }
    {
        self.faults = self.faults.saturating_add(1);
    }

    /// Has the writer take some first bytes of a piece.
    fn pass_on(&mut self, piece: &[u8]) -> Result<usize, Failed>
        requires { 0 < length piece.now }
        ensures taken { IfOk result (λ count. (0 < count) × (count ≤ length piece.now)) }
        ensures bytes { WriteAppends self.old.known self.new.known result piece.now }
        ensures cause { HasCause self.old.faults self.new.faults result }
        ensures few { self.new.faults ≤ self.old.faults + 100 }
    {
        let mut tries = 0;
        loop {
            let is_interrupted = match self.inner.write(piece) {
                Ok(0) => false,
                Ok(count) => return Ok(count),
                Err(error) => error.kind() == ErrorKind::Interrupted,
            };
            tries += 1;
            self.count_fault();
            if tries == MAX_TRIES || !is_interrupted {
                return Err(Failed);
            }
        }
    }

    /// Has the writer pass on what it took.
    fn flush_writer(&mut self) -> Result<(), Failed>
        ensures same { Keeps self.old.known self.new.known }
        ensures cause { HasCause self.old.faults self.new.faults result }
        ensures few { self.new.faults ≤ self.old.faults + 100 }
    {
        let mut tries = 0;
        loop {
            let Err(error) = self.inner.flush() else {
                return Ok(());
            };
            tries += 1;
            self.count_fault();
            if tries == MAX_TRIES || error.kind() != ErrorKind::Interrupted {
                return Err(Failed);
            }
        }
    }
}

impl<W: Write> Sink for RealSink<W> {
    ghost held = { λ _. None };

    ghost waiting = { λ _. 0 };

    ghost faults = { λ s. s.faults };

    fn write(&mut self, piece: &[u8]) -> Result<usize, Failed>
        requires { 0 < length piece.now }
        ensures taken { IfOk result (λ count. (0 < count) × (count ≤ length piece.now)) }
        ensures cause { HasCause self.old.faults self.new.faults result }

        // What it took is what the writer got, and after a failure that is some first part.
        ensures bytes { IfOk result (λ count. Appends self.old.known self.new.known (take count piece.now)) }
        ensures part { OnErr result (AppendsPart self.old.known self.new.known piece.now) }

        // A call adds no more than so many faults to the count.
        ensures few { self.new.faults ≤ self.old.faults + 200 }
    {
        let count = self.pass_on(piece)?;
        self.flush_writer()?;
        Ok(count)
    }

    /// Nothing waits here, since each write is flushed.
    fn flush(&mut self) -> Result<(), Failed>
        ensures { IsOk result × (self.new ≡ self.old) }
    {
        Ok(())
    }
}
