//! Sources and sinks over readers and writers of std: bytes in memory, and ones that fail.
//!
//! The lines: `real read TEXT` is answered with what a source over this text gives, `real write A B` with what a writer
//! got that A and then B were written to; `read broken`, `write broken TEXT` and `write nowhere TEXT` are over a reader
//! that fails, a writer that can't be flushed, and one without room.

use crate::answering::{text_of, write};
use check_heap::{number_text, text};
use std::alloc::{AllocError, Global};
use std::io;
use std::io::{Read, Write};
use tide_io::{RealSink, RealSource, Source, read_up_to, write_all};

/// A reader that always fails, and a writer that takes all and can't be flushed.
#[derive(Drop)]
struct Broken;

impl Read for Broken {
    fn read(&mut self, _buf: &mut [u8]) -> io::Result<usize> {
        Err(io::Error::from(io::ErrorKind::Other))
    }
}

impl Write for Broken {
    fn write(&mut self, buf: &[u8]) -> io::Result<usize> {
        Ok(buf.len())
    }

    fn flush(&mut self) -> io::Result<()> {
        Err(io::Error::from(io::ErrorKind::Other))
    }
}

/// What a source over a text gives.
fn read_real(alloc: Global, given: &str) -> Result<String, AllocError> {
    let mut source = RealSource::new(given.as_bytes());
    match read_up_to(alloc, &mut source, 100) {
        Ok(bytes) => text_of(alloc, bytes.as_slice()),
        Err(_) => text(alloc, "failed"),
    }
}

/// What a writer got that two texts were written to.
fn write_real(alloc: Global, first: &str, second: &str) -> Result<String, AllocError> {
    let mut written = Vec::new(alloc);
    let mut sink = RealSink::new(&mut written);
    let has_first = write_all(&mut sink, first.as_bytes()).is_ok();
    let has_second = write_all(&mut sink, second.as_bytes()).is_ok();
    drop(sink);
    if has_first && has_second {
        text_of(alloc, written.as_slice())
    } else {
        text(alloc, "failed")
    }
}

/// What is read from a reader that fails.
fn read_broken(alloc: Global) -> Result<String, AllocError> {
    match RealSource::new(Broken).read(&mut [0; 4]) {
        Ok(count) => number_text(alloc, count as u64),
        Err(_) => text(alloc, "failed"),
    }
}

/// What is asked of ends over readers and writers.
pub fn on_real_end(alloc: Global, words: &[&str]) -> Result<Option<String>, AllocError> {
    let answer = match words {
        ["real", "read", given] => read_real(alloc, given)?,
        ["real", "write", first, second] => write_real(alloc, first, second)?,
        ["read", "broken"] => read_broken(alloc)?,
        ["write", "broken", piece] => write(alloc, &mut RealSink::new(Broken), piece)?,
        ["write", "nowhere", piece] => {
            let nowhere: &mut [u8] = &mut [];
            write(alloc, &mut RealSink::new(nowhere), piece)?
        }
        _ => return Ok(None),
    };
    Ok(Some(answer))
}
