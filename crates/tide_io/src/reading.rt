//! Reading all that a source gives, up to a limit.
ghost use Rattle.std.specs.Prelude.{◌≡◌, ℕ, ◌<◌, ◌≤◌, ◌++◌, List, length, IfOk};
ghost use Rattle.std.specs.Io.KnownBytes.{Consumes, IsAtEnd};
ghost use Rattle.tide_io.specs.Faults.{Rose};

use crate::Source;
use std::alloc::Global;

/// Why `read_up_to` gave no bytes.
#[derive(Clone, Copy, Debug, PartialEq, Eq)]
pub enum ReadError {
    /// There was no memory for them.
    Memory,
    /// The source failed.
    Failed,
}

/// How many bytes are asked for at once, at most.
const CHUNK: usize = 4096;

/// Reads until the source ends or `limit` bytes came. After an `Err` the bytes that came are lost.
pub fn read_up_to<S: Source>(
    alloc: Global,
    source: &mut S,
    limit: usize,
) -> Result<Vec<u8>, ReadError>
    ensures taken { IfOk result (λ bytes. Consumes (S.left source.old) (S.left source.new) bytes.items) }
    ensures limit { IfOk result (λ bytes. length bytes.items ≤ limit) }
    ensures ended { IfOk result (λ bytes. length bytes.items < limit → IsAtEnd (S.left source.new)) }
    ensures failed { result ≡ Err ReadError.Failed → Rose (S.faults source.old) (S.faults source.new) }
    ensures later { S.faults source.old ≤ S.faults source.new }
{
    let mut bytes = Vec::new(alloc);
    let mut chunk = [0; CHUNK];
    while bytes.len() < limit {
        let wanted = CHUNK.min(limit - bytes.len());
        if read_chunk(source, &mut chunk[..wanted], &mut bytes)? == 0 {
            break;
        }
    }
    Ok(bytes)
}

// One read into `chunk`, whose bytes it appends. Answers how many came.
fn read_chunk<S: Source>(
    source: &mut S,
    chunk: &mut [u8],
    bytes: &mut Vec<u8>,
) -> Result<usize, ReadError>
    requires { 0 < length chunk.old }
    ensures within { IfOk result (λ count. count ≤ length chunk.old) }
    ensures taken { IfOk result (λ count. (piece : List ℕ) × (length piece ≡ count)
        × (bytes.new.items ≡ bytes.old.items ++ piece)
        × Consumes (S.left source.old) (S.left source.new) piece) }
    ensures ended { result ≡ Ok 0 → IsAtEnd (S.left source.new) }
    ensures failed { result ≡ Err ReadError.Failed → Rose (S.faults source.old) (S.faults source.new) }
    ensures later { S.faults source.old ≤ S.faults source.new }
{
    match source.read(chunk) {
        Ok(count) => match bytes.extend_from_slice(&chunk[..count]) {
            Ok(()) => Ok(count),
            Err(_) => Err(ReadError::Memory),
        },
        Err(_) => Err(ReadError::Failed),
    }
}
