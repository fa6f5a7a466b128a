//! The mutators: who is active, what their registers hold and which cells they claim. It knows no cell.
ghost use Rattle.std.specs.Prelude.{◌≡◌, ◌<◌, ◌==◌, ◌++◌, ◌∷◌, [], drop, false, filter, length, not, replicate, slice_set, IfOk};
ghost use Rattle.tide_plain.specs.parts.Changes.{filled, with_claims};
ghost use Rattle.tide_plain.specs.parts.PartLists.{blank_mutator, mutator_at};

use arrayvec::ArrayVec;
use std::alloc::Global;
use std::marker::Model;
use tide_model::{Memory, Val};

/// A mutator: its registers, of which those past the layout's number stay empty, and the cells that it claims, the
/// oldest claim first.
#[derive(Drop)]
pub struct StoredMutator {
    pub is_active: bool,
    pub registers: [Val; 250],
    pub claims: ArrayVec<u32, 8>,
}

impl StoredMutator {
    /// An active mutator whose registers are empty and that claims nothing.
    fn blank() -> Self
        ensures { result ≡ blank_mutator }
    {
        StoredMutator {
            is_active: true,
            registers: [Val::Empty; 250],
            claims: ArrayVec::new(),
        }
    }
}

/// The mutators, by number. Contracts see the list of what is stored of each.
#[derive(Drop)]
pub struct Mutators {
    mutators: Vec<StoredMutator>,
}

impl Model for Mutators {
    ghost use Rattle.std.specs.Prelude.{List};
    ghost use Rattle.tide_plain.specs.declared.parts.mutators.StoredMutator.{StoredMutator};

    ghost Value = { List StoredMutator };

    ghost view = { λ part. part.mutators.items };
}

impl Mutators {
    /// So many mutators that did nothing yet.
    pub fn new(alloc: Global, count: u8) -> Result<Mutators, Memory>
        ensures { IfOk result (λ new. new ≡ replicate count blank_mutator) }
    {
        let mut mutators = Vec::new(alloc);
        for _ in 0..count {
            mutators.push(StoredMutator::blank()).map_err(|_| Memory)?;
        }
        Ok(Mutators { mutators })
    }

    /// What is stored of a mutator.
    pub fn stored(&self, who: u32) -> &StoredMutator
        requires { who < length self.now }
        ensures { result.now ≡ mutator_at self.now who }
    {
        &self.mutators[who as usize]
    }

    /// A mutator's register gets another value.
    pub fn fill(&mut self, who: u32, register: u8, value: Val)
        requires mutator { who < length self.old }
        requires register { register < 250 }
        ensures wide { length (mutator_at self.old who).registers ≡ 250 }
        ensures fill { self.new ≡ slice_set self.old who (filled (mutator_at self.old who) register value) }
    {
        self.mutators[who as usize].registers[usize::from(register)] = value;
    }

    /// A mutator claims one cell more.
    pub fn claim(&mut self, who: u32, cell: u32)
        requires mutator { who < length self.old }
        requires room { length (mutator_at self.old who).claims.items < 8 }
        ensures { self.new ≡ slice_set self.old who (with_claims (mutator_at self.old who)
            ((mutator_at self.old who).claims.items ++ cell ∷ [])) }
    {
        self.mutators[who as usize].claims.push(cell);
    }

    /// A mutator's claim on a cell ends.
    pub fn release(&mut self, who: u32, cell: u32)
        requires { who < length self.old }
        ensures { self.new ≡ slice_set self.old who (with_claims (mutator_at self.old who)
            (filter (λ claimed. not (claimed == cell)) (mutator_at self.old who).claims.items)) }
    {
        self.mutators[who as usize]
            .claims
            .retain(|claimed| *claimed != cell);
    }

    /// A mutator's oldest claim ends, if it has one.
    pub fn unclaim(&mut self, who: u32)
        requires mutator { who < length self.old }
        requires some { 0 < length (mutator_at self.old who).claims.items }
        ensures { self.new ≡ slice_set self.old who (with_claims (mutator_at self.old who)
            (drop 1 (mutator_at self.old who).claims.items)) }
    {
        self.mutators[who as usize].claims.remove(0);
    }

    /// A mutator is active no more.
    pub fn retire(&mut self, who: u32)
        requires { who < length self.old }
        ensures { self.new ≡ slice_set self.old who (record (mutator_at self.old who) { is_active = false }) }
    {
        self.mutators[who as usize].is_active = false;
    }
}
