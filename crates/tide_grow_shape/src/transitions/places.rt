//! Where numbers stand in a list, found by a hash. It knows no shape and no thread.
ghost use Rattle.std.specs.Prelude.{◌≡◌, [], ◌∷◌, ◌++◌, length, OnOk};
ghost use Rattle.tide_grow_shape.specs.transitions.Places.{HasRoom, Indexes, place_of};

use std::alloc::Global;
use std::collections::HashMap;
use tide_model::Memory;

/// The first place of each number of a list, which is the caller's.
#[derive(Drop)]
pub struct Places {
    places: HashMap<u64, usize>,
}

impl Places {
    #[tactic(auto, using(crate::proofs::transitions_laws::PlaceLaws::indexes_none))]
    /// Of the list of no number.
    pub fn new(alloc: Global) -> Places
        ensures { Indexes result [] }
    {
        Places {
            places: HashMap::new(alloc),
        }
    }

    /// The first place of the number, where it stands in the list.
    pub fn place_of(&self, number: u64) -> Option<usize>
        ensures { (numbers : _) → Indexes self.now numbers → result ≡ place_of numbers number }
    {
        self.places.get(&number).copied()
    }

    #[tactic(auto, using(crate::proofs::transitions_laws::PlaceLaws::indexes_same))]
    /// Makes room for one number more.
    pub fn reserve(&mut self) -> Result<(), Memory>
        ensures room { OnOk result (HasRoom self.new) }
        ensures same { (numbers : _) → Indexes self.old numbers → Indexes self.new numbers }
    {
        match self.places.reserve(1) {
            Ok(()) => Ok(()),
            Err(_) => Err(Memory),
        }
    }

    #[tactic(auto, using(crate::proofs::transitions_laws::PlaceLaws::indexes_old, crate::proofs::transitions_laws::PlaceLaws::indexes_new))]
    /// Of the list with one number more, which stands at this place.
    pub fn add(&mut self, number: u64, place: usize)
        requires { HasRoom self.old }
        ensures { (numbers : _) → Indexes self.old numbers → place ≡ length numbers →
            Indexes self.new (numbers ++ number ∷ []) }
    {
        if self.places.contains_key(&number) {
            return;
        }
        match self.places.insert(number, place) {
            Ok(_) => {}
            Err(_) => unreachable!(),
        }
    }
}
