//! Why bytes are no workload. The line that tells it stands elsewhere.
ghost use Rattle.std.specs.Prelude.{◌≡◌};
ghost use Rattle.tide_text.specs.declared.work.fault.Fault.TheVariants.{Memory};

use crate::work::field::Field;
use std::alloc::{AllocError, AllocFailed};
use tide_model::Memory;

/// Why bytes are no workload.
#[derive(Clone, Copy, Debug, PartialEq, Eq)]
pub enum Fault {
    /// The bytes are no TOML document.
    NotToml,
    /// There are more than `MAX_BYTES` bytes.
    TooLong,
    /// A field that has to be there isn't.
    Missing { field: Field },
    /// A field's value isn't as it has to be, a field that isn't read yet is there, or a name that no field has.
    Bad { field: Field },
    /// The text of this mutator at this place, both counted from 0, is no operation's.
    BadOp { mutator: u32, at: u32 },
    /// Want of memory.
    Memory,
}

impl From<AllocError> for Fault {
    ghost from_gives = { λ _ fault. fault ≡ Memory };

    fn from(_: AllocError) -> Fault {
        Fault::Memory
    }
}

impl<T: Drop> From<AllocFailed<T>> for Fault {
    ghost from_gives = { λ _ fault. fault ≡ Memory };

    fn from(_: AllocFailed<T>) -> Fault {
        Fault::Memory
    }
}

impl From<Memory> for Fault {
    ghost from_gives = { λ _ fault. fault ≡ Memory };

    fn from(_: Memory) -> Fault {
        Fault::Memory
    }
}
