//! The shapes that a grower knows, each with its number and its keys. It knows no cell.
ghost use Rattle.std.specs.Prelude.{◌≡◌, ◌<◌, ◌≤◌, ◌^◌, ℕ, [], ◌∷◌, ◌++◌, Contains, IfOk, OnErr, OnOk, is_some, map, option_map, true};
ghost use Rattle.tide_grow_shape.specs.growers.Grown.{known_keys, learned};
ghost use Rattle.tide_grow_shape.specs.growers.Known.{fact_of};

use crate::transitions::Places;
use std::alloc::Global;
use std::marker::Model;
use tide_model::Memory;

/// A shape that is known.
#[derive(Drop)]
pub(crate) struct KnownShape {
    shape: u32,
    keys: Vec<u32>,
}

/// Known shapes. Contracts see what is known of each, in the order in which they came.
#[derive(Drop)]
pub(crate) struct KnownShapes {
    shapes: Vec<KnownShape>,
    /// Where each shape stands.
    places: Places,
}

impl Model for KnownShapes {
    ghost use Rattle.std.specs.Prelude.{List};
    ghost use Rattle.tide_grow_shape.specs.growers.Grown.{Fact};

    ghost Value = { List Fact };

    ghost use Rattle.std.specs.Prelude.{map};
    ghost use Rattle.tide_grow_shape.specs.growers.Known.{fact_of};
    ghost use Rattle.tide_grow_shape.specs.transitions.Places.{Indexes};

    ghost view = { λ k. map fact_of k.shapes.items };

    ghost invariant = { λ k. Indexes k.places (map (λ known. known.shape) k.shapes.items) };
}

/// The keys once more.
pub(crate) fn copied(alloc: Global, keys: &[u32]) -> Result<Vec<u32>, Memory>
    ensures { IfOk result (λ copied. copied.items ≡ keys.now) }
{
    let mut copied = Vec::new(alloc);
    match copied.extend_from_slice(keys) {
        Ok(()) => Ok(copied),
        Err(_) => Err(Memory),
    }
}

impl KnownShapes {
    /// No shape.
    fn none(alloc: Global) -> KnownShapes
        ensures { result ≡ [] }
    {
        KnownShapes {
            shapes: Vec::new(alloc),
            places: Places::new(alloc),
        }
    }

    /// The empty shape alone.
    pub(crate) fn new(alloc: Global) -> Result<KnownShapes, Memory>
        ensures { IfOk result (λ known. known ≡ record { shape = 0; keys = [] } ∷ []) }
    {
        let mut known = KnownShapes::none(alloc);
        known.push(0, Vec::new(alloc))?;
        Ok(known)
    }

    /// The keys of a shape, where it is known.
    pub(crate) fn keys(&self, shape: u32) -> Option<&[u32]>
        ensures { option_map (λ keys. keys.now) result ≡ known_keys self.now shape }
    {
        match self.places.place_of(shape as u64) {
            Some(at) => {
                let known = &self.shapes[at];
                Some(known.keys.as_slice())
            }
            None => None,
        }
    }

    /// One shape more.
    fn push(&mut self, shape: u32, keys: Vec<u32>) -> Result<(), Memory>
        ensures ok { OnOk result (self.new ≡ self.old ++ record { shape = shape; keys = keys.items } ∷ []) }
        ensures err { OnErr result (self.new ≡ self.old) }
    {
        if self.shapes.reserve(1).is_err() {
            return Err(Memory);
        }
        self.places.reserve()?;
        let at = self.shapes.len();
        self.places.add(shape as u64, at);
        self.shapes.push_reserved(KnownShape { shape, keys });
        Ok(())
    }

    /// One shape more, unless it is known.
    pub(crate) fn learn(&mut self, shape: u32, keys: Vec<u32>) -> Result<(), Memory>
        ensures ok { OnOk result (self.new ≡ learned self.old shape keys.items) }
        ensures err { OnErr result (self.new ≡ self.old) }
    {
        if self.keys(shape).is_some() {
            return Ok(());
        }
        self.push(shape, keys)
    }

    #[tactic(auto, using(crate::proofs::growers_laws::LearnLaws::learns_none, crate::proofs::growers_laws::LearnLaws::learns_more, crate::proofs::growers_laws::LearnLaws::learns_all))]
    /// Some shapes more, but those that are known. After an `Err` some of them may be known.
    fn learn_each(&mut self, alloc: Global, shapes: &[KnownShape]) -> Result<(), Memory>
        ensures kept { (fact : _) → Contains self.old fact → Contains self.new fact }
        ensures among { (fact : _) → Contains self.new fact → Contains (self.old ++ map fact_of shapes.now) fact }
        ensures merged { OnOk result ((fact : _) → Contains (map fact_of shapes.now) fact →
            is_some (known_keys self.new fact.shape) ≡ true) }
    {
        for known in shapes {
            self.learn(known.shape, copied(alloc, known.keys.as_slice())?)?;
        }
        Ok(())
    }

    /// All that another grower knows more. After an `Err` some of it may be known.
    pub(crate) fn learn_all(&mut self, alloc: Global, other: &KnownShapes) -> Result<(), Memory>
        ensures kept { (fact : _) → Contains self.old fact → Contains self.new fact }
        ensures among { (fact : _) → Contains self.new fact → Contains (self.old ++ other.now) fact }
        ensures merged { OnOk result ((fact : _) → Contains other.now fact →
            is_some (known_keys self.new fact.shape) ≡ true) }
    {
        self.learn_each(alloc, other.shapes.as_slice())
    }

    /// The lowest number that is above that of each known shape.
    pub(crate) fn past(&self) -> u64
        ensures above { (fact : _) → Contains self.now fact → fact.shape < result }
        ensures lowest { (bound : ℕ) → ((fact : _) → Contains self.now fact → fact.shape < bound) → result ≤ bound }
        ensures fits { result ≤ 2 ^ 32 }
    {
        past(self.shapes.as_slice())
    }
}

/// The lowest number that is above those of some shapes.
#[tactic(auto, using(crate::proofs::growers_laws::LearnLaws::past_none, crate::proofs::growers_laws::LearnLaws::past_more))]
fn past(shapes: &[KnownShape]) -> u64
    ensures above { (fact : _) → Contains (map fact_of shapes.now) fact → fact.shape < result }
    ensures lowest { (bound : ℕ) → ((fact : _) → Contains (map fact_of shapes.now) fact → fact.shape < bound) →
        result ≤ bound }
    ensures fits { result ≤ 2 ^ 32 }
{
    let mut past = 0;
    for known in shapes {
        past = past.max(known.shape as u64 + 1);
    }
    past
}
