//! The texts that answers of a source or a sink are.
use check_heap::{number_text, text};
use std::alloc::{AllocError, Global};
use tide_io::Sink;

/// The text that bytes are.
pub fn text_of(alloc: Global, bytes: &[u8]) -> Result<String, AllocError> {
    text(alloc, std::str::from_utf8(bytes).unwrap_or("no text"))
}

/// One write.
pub fn write<K: Sink>(alloc: Global, sink: &mut K, piece: &str) -> Result<String, AllocError> {
    if piece.is_empty() {
        return text(alloc, "");
    }
    match sink.write(piece.as_bytes()) {
        Ok(count) => number_text(alloc, count as u64),
        Err(_) => text(alloc, "failed"),
    }
}
