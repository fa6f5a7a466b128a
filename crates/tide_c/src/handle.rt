//! `Handle`: what C holds of a party, an address of which it knows nothing.
ghost use Rattle.std.specs.Prelude.{◌≡◌, IfSome, None, Option, Some};
ghost use Rattle.tide_c.specs.Owning.{handle_owns};
ghost use Rattle.tide_c.specs.Parties.{PartyStands};
ghost use Rattle.tide_c.specs.contracts.party.Party.{the_row};
ghost use Rattle.tide_c.specs.declared.party.Party.{Party as Within};

use crate::block::Block;
use crate::party::Party;
use std::alloc::Global;
use std::marker::Model;

/// A party behind an address, or nothing: an empty one is of zeros, and C reads none.
#[repr(C)]
#[derive(Drop)]
pub struct Handle {
    at: *mut u8,
    full: usize,
    pub ghost value: { Option Within },
}

impl Model for Handle {
    ghost also_owns = { λ h. handle_owns the_row PartyStands h.full h.at h.value };
}

impl Handle {
    /// It is empty.
    pub fn empty() -> Handle
        ensures { result.value ≡ None }
    {
        Handle {
            at: std::ptr::null_mut(),
            full: 0,
        }
    }

    /// What a party's box owned goes behind it.
    fn seal(block: Block<Party, Global>) -> Handle
        requires stands { PartyStands block.value }
        ensures { result.value ≡ Some block.value }
    {
        let Block { alloc: _, start } = block;
        Handle {
            at: start as *mut u8,
            full: 1,
        }
    }

    /// What is behind it, if it isn't empty.
    fn unseal(self, alloc: Global) -> Option<Block<Party, Global>>
        ensures empty { result ≡ None → self.value ≡ None }
        ensures value { IfSome result (λ block. self.value ≡ Some block.value) }
        ensures stands { IfSome result (λ block. PartyStands block.value) }
    {
        let Handle { at, full } = self;
        if full == 0 {
            return None;
        }
        Some(Block {
            alloc,
            start: at as *mut Party,
        })
    }

    /// A party's box behind it.
    pub fn of(party: Box<Party, Global>) -> Handle
        requires stands { PartyStands party.value }
        ensures { result.value ≡ Some party.value }
    {
        Handle::seal(Block::under(party))
    }

    /// The party's box behind it, if it isn't empty.
    pub fn into_box(self, alloc: Global) -> Option<Box<Party, Global>>
        ensures empty { result ≡ None → self.value ≡ None }
        ensures value { IfSome result (λ party. self.value ≡ Some party.value) }
        ensures stands { IfSome result (λ party. PartyStands party.value) }
    {
        Some(self.unseal(alloc)?.boxed())
    }
}
