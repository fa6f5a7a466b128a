//! A source over any reader of std.
ghost use Rattle.std.specs.Prelude.{◌≡◌, ◌+◌, ◌<◌, ◌≤◌, None, length, IfOk};
ghost use Rattle.std.specs.Io.KnownBytes.{ReadConsumes};
ghost use Rattle.tide_io.specs.CallLog.{one_more};
ghost use Rattle.tide_io.specs.Faults.{HasCause};

use crate::{Failed, MAX_TRIES, Source};
use std::io::{ErrorKind, Read};
use std::marker::Model;

/// A source over a reader of std, which tells nothing of the bytes that are left.
///
/// A read that was interrupted is tried again, `MAX_TRIES` times in all. Each failure of the reader is counted, also
/// one after which it went on.
#[derive(Drop)]
pub struct RealSource<R: Read> {
    inner: R,
    faults: u64,
}

impl<R: Read> Model for RealSource<R> {
    ghost use Rattle.tide_io.specs.Adapter.{AdapterState};

    ghost Value = { AdapterState };

    ghost view = { λ s. record { known = R.remaining s.inner; faults = s.faults } };
}

impl<R: Read> RealSource<R> {
    /// A source of what this reader gives.
    pub fn new(inner: R) -> Self
        ensures { result ≡ record { known = R.remaining inner; faults = 0 } }
    {
        RealSource { inner, faults: 0 }
    }

    /// One fault more.
    fn count_fault(&mut self)
        ensures counted { self.new.faults ≡ one_more self.old.faults }
        ensures later { self.old.faults ≤ self.new.faults }
        ensures same { self.new.known ≡ self.old.known }
    {
        self.faults = self.faults.saturating_add(1);
    }
}

impl<R: Read> Source for RealSource<R> {
    ghost left = { λ _. None };

    ghost faults = { λ s. s.faults };

    fn read(&mut self, buf: &mut [u8]) -> Result<usize, Failed>
        requires { 0 < length buf.old }
        ensures within { IfOk result (λ count. count ≤ length buf.new) }
        ensures cause { HasCause self.old.faults self.new.faults result }

        // The bytes are the reader's.
        ensures bytes { ReadConsumes self.old.known self.new.known result buf.new }

        // A call adds no more than so many faults to the count.
        ensures few { self.new.faults ≤ self.old.faults + 100 }
    {
        let mut tries = 0;
        loop {
            match self.inner.read(buf) {
                Ok(count) => return Ok(count),
                Err(error) => {
                    tries += 1;
                    self.count_fault();
                    if tries == MAX_TRIES || error.kind() != ErrorKind::Interrupted {
                        return Err(Failed);
                    }
                }
            }
        }
    }
}
