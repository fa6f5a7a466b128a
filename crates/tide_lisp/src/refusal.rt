//! `Refusal`: why nothing ran.

use crate::fault::Fault;
use crate::text::Place;
use std::alloc::AllocError;
use std::fmt;
use tide::Refused;

/// Why nothing ran.
#[derive(Clone, Copy, Debug, PartialEq, Eq)]
pub enum Refusal<'w> {
    /// The text of the script of this name can't be read.
    Unread(&'w str),
    /// It is no script, for what is at this place.
    NoScript(&'w str, Place, Fault),
    /// The scripts' objects have too many lists of keys.
    Lists,
    /// There is no such heap, or no memory.
    Heap(Refused),
}

impl<'w> From<AllocError> for Refusal<'w> {
    fn from(_: AllocError) -> Refusal<'w> {
        Refusal::Heap(Refused::Memory)
    }
}

impl<'w> From<Refused> for Refusal<'w> {
    fn from(refused: Refused) -> Refusal<'w> {
        Refusal::Heap(refused)
    }
}

impl<'w> fmt::Display for Refusal<'w> {
    fn fmt<W: fmt::Write>(&self, f: &mut fmt::Formatter<W>) -> fmt::Result {
        match *self {
            Refusal::Unread(name) => write!(f, "{name}: it can't be read"),
            Refusal::NoScript(name, Place { line, column }, fault) => {
                write!(f, "{name}:{line}:{column}: {fault}")
            }
            Refusal::Lists => write!(f, "objects have more than 64 lists of keys"),
            Refusal::Heap(Refused::Memory) => write!(f, "no memory"),
            Refusal::Heap(refused) => write!(f, "the heap is refused: {refused:?}"),
        }
    }
}
