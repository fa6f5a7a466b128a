//! `Fault`: why a text is no script.

use std::alloc::{AllocError, AllocFailed};
use std::fmt;

/// Why a text is no script.
#[derive(Clone, Copy, Debug, PartialEq, Eq)]
pub enum Fault {
    /// A list isn't closed.
    Unclosed,
    /// A parenthesis closes no list.
    Unopened,
    /// A form has too few operands, or too many.
    Operands,
    /// A name is wanted here.
    Name,
    /// A list is wanted here.
    List,
    /// A key is wanted here, as `'x`.
    Key,
    /// A key isn't wanted here.
    NoKey,
    /// A word begins with a digit and is no number.
    Number,
    /// A definition is in another form.
    Nested,
    /// A name that nothing defines.
    Unknown,
    /// Too many names.
    Names,
    /// A procedure keeps the values of too many names.
    Kept,
    Memory,
}

impl fmt::Display for Fault {
    fn fmt<W: fmt::Write>(&self, f: &mut fmt::Formatter<W>) -> fmt::Result {
        f.write_str(match self {
            Fault::Unclosed => "this list isn't closed",
            Fault::Unopened => "no list is open here",
            Fault::Operands => "too few operands, or too many",
            Fault::Name => "a name is wanted here",
            Fault::List => "a list is wanted here",
            Fault::Key => "a key is wanted here, as 'x",
            Fault::NoKey => "no key is wanted here",
            Fault::Number => "no number from 0 to 4294967295",
            Fault::Nested => "a definition stands in no other form",
            Fault::Unknown => "nothing defines this name",
            Fault::Names => "more than 256 names",
            Fault::Kept => "this procedure uses more than 7 names of those around it",
            Fault::Memory => "no memory",
        })
    }
}

impl<T: Drop> From<AllocFailed<T>> for Fault {
    fn from(_: AllocFailed<T>) -> Fault {
        Fault::Memory
    }
}

impl From<AllocError> for Fault {
    fn from(_: AllocError) -> Fault {
        Fault::Memory
    }
}
