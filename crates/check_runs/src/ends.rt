//! Sources and sinks alone: those in memory, which give and take so many bytes a call and fail where they are told to,
//! and those over readers and writers.
//!
//! The lines of a row: `source TEXT STEP FAILS` and `sink ROOM STEP FAILS` make them, `source of BYTES x STEP` one that
//! is so long. Then
//!
//! - `read SIZE` is answered with how many bytes came, and with what a buffer of so many `-` is then,
//!   `read up to LIMIT` with what came and `count up to LIMIT` with how much;
//! - `write TEXT` is answered with how many bytes were taken, `write all TEXT` with whether all were, and `held` with
//!   all that the sink took; a call that fails is answered `failed`;
//! - what `real.rt` answers.

use crate::answering::{text_of, write};
use crate::real::on_real_end;
use check_heap::{Answers, joined, large_number, large_numbers, number_between, number_text, text};
use std::alloc::{AllocError, Global};
use tide_io::{MemSink, MemSource, ReadError, Sink, Source, read_up_to, write_all};

/// A source and a sink, once they are made.
#[derive(Drop)]
pub struct Ends {
    source: Option<MemSource>,
    sink: Option<MemSink>,
}

/// The size that a word is, and 0 where it is none.
fn size_of(word: &str) -> usize {
    match large_number(word) {
        Some(size) => size as usize,
        None => 0,
    }
}

/// One read, into a buffer of so many bytes.
fn read(alloc: Global, source: &mut MemSource, size: usize) -> Result<String, AllocError> {
    let mut buf = vec![in alloc; b'-'; size]?;
    if buf.is_empty() {
        return text(alloc, "");
    }
    match source.read(buf.as_mut_slice()) {
        Ok(count) => {
            let count = number_between(alloc, "", count as u64, " ")?;
            let bytes = text_of(alloc, buf.as_slice())?;
            joined(alloc, &[count.as_str(), bytes.as_str()])
        }
        Err(_) => text(alloc, "failed"),
    }
}

/// Reads up to a limit.
fn read_all(
    alloc: Global,
    source: &mut MemSource,
    limit: usize,
) -> Result<Option<Vec<u8>>, AllocError> {
    match read_up_to(alloc, source, limit) {
        Ok(bytes) => Ok(Some(bytes)),
        Err(ReadError::Failed) => Ok(None),
        Err(ReadError::Memory) => Err(AllocError),
    }
}

/// What is asked of a source.
fn on_source(
    alloc: Global,
    source: &mut MemSource,
    words: &[&str],
) -> Result<Option<String>, AllocError> {
    let answer = match words {
        ["read", size] => read(alloc, source, size_of(size))?,
        [what, "up", "to", limit] => {
            match read_all(alloc, source, size_of(limit))? {
                None => text(alloc, "failed")?,
                Some(bytes) if *what == "read" => text_of(alloc, bytes.as_slice())?,
                Some(bytes) => number_text(alloc, bytes.len() as u64)?,
            }
        }
        _ => return Ok(None),
    };
    Ok(Some(answer))
}

/// Writes all of a text.
fn write_whole<K: Sink>(alloc: Global, sink: &mut K, piece: &str) -> Result<String, AllocError> {
    match write_all(sink, piece.as_bytes()) {
        Ok(()) => text(alloc, "all"),
        Err(_) => text(alloc, "failed"),
    }
}

/// What is asked of a sink.
fn on_sink(
    alloc: Global,
    sink: &mut MemSink,
    words: &[&str],
) -> Result<Option<String>, AllocError> {
    let answer = match words {
        ["write", "all"] => write_whole(alloc, sink, "")?,
        ["write", "all", piece] => write_whole(alloc, sink, piece)?,
        ["write", piece] => write(alloc, sink, piece)?,
        ["held"] => text_of(alloc, sink.held())?,
        _ => return Ok(None),
    };
    Ok(Some(answer))
}

/// The source that words make.
fn source_of(alloc: Global, words: &[&str]) -> Result<Option<MemSource>, AllocError> {
    let (bytes, step, fails) = match words {
        ["of", count, "x", step] => {
            let bytes = vec![in alloc; b'x'; size_of(count)]?;
            (bytes, step, &words[4..])
        }
        [bytes, step, fails @ ..] => (bytes.as_bytes().to_vec(alloc)?, step, fails),
        _ => return Ok(None),
    };
    let Some(fails) = large_numbers(alloc, fails)? else {
        return Ok(None);
    };
    let step = size_of(step);
    if step == 0 {
        return Ok(None);
    }
    Ok(Some(MemSource::new(bytes, step, fails)))
}

/// The sink that words make.
fn sink_of(alloc: Global, words: &[&str]) -> Result<Option<MemSink>, AllocError> {
    let [room, step, fails @ ..] = words else {
        return Ok(None);
    };
    let Some(fails) = large_numbers(alloc, fails)? else {
        return Ok(None);
    };
    let step = size_of(step);
    if step == 0 {
        return Ok(None);
    }
    match MemSink::new(alloc, size_of(room), step, fails) {
        Ok(sink) => Ok(Some(sink)),
        Err(_) => Err(AllocError),
    }
}

impl Ends {
    /// What is asked of the source or the sink.
    fn told(&mut self, alloc: Global, words: &[&str]) -> Result<Option<String>, AllocError> {
        if let Some(source) = &mut self.source {
            if let Some(answer) = on_source(alloc, source, words)? {
                return Ok(Some(answer));
            }
        }
        match &mut self.sink {
            Some(sink) => on_sink(alloc, sink, words),
            None => on_real_end(alloc, words),
        }
    }
}

impl Answers for Ends {
    fn begin(_alloc: Global) -> Result<Self, AllocError> {
        Ok(Ends {
            source: None,
            sink: None,
        })
    }

    fn answer(&mut self, alloc: Global, words: &[&str]) -> Result<Option<String>, AllocError> {
        match words {
            ["source", source @ ..] => self.source = source_of(alloc, source)?,
            ["sink", sink @ ..] => self.sink = sink_of(alloc, sink)?,
            _ => return self.told(alloc, words),
        }
        Ok(Some(text(alloc, "")?))
    }
}
