//! How a grower makes a shape: it walks to the child, which is made where there is none, and knows it from then on.
ghost use Rattle.std.specs.Prelude.{◌≡◌, ◌≢◌, ◌↔◌, ◌<◌, ◌≤◌, ℕ, [], ◌∷◌, ◌++◌, Contains, Err, IfOk, IfSome, None, OnErr, OnOk, Some, length};
ghost use Rattle.tide_grow_shape.specs.transitions.Cells.{Shown, keys_in, last_in, name_of};
ghost use Rattle.tide_grow_shape.specs.growers.Grown.{known_keys};
ghost use Rattle.tide_grow_shape.specs.transitions.Sights.{IsUnmade, edges_of};
ghost use Rattle.tide_grow_shape.specs.growers.Stands.{AreOfTable, Stands, index_of};
ghost use Rattle.tide_grow_shape.specs.transitions.Walks.{Lists};
ghost use Rattle.tide_shape.specs.ShapeTable.{HasNoKeyTwice};

use crate::growers::known::KnownShapes;
use crate::growers::refused::GrowRefused;
use crate::transitions::{Cells, GrowHook, ShownItem, Sights, Sought, Unmade};
use std::alloc::Global;
use std::sync::Wait;
use tide_model::Memory;

/// What was read of a table's cells, and the shapes that are known by that.
#[derive(Drop)]
pub(crate) struct Maker {
    pub sights: Sights,
    pub known: KnownShapes,
    /// The item, if any, for which no number was left when a shape was last refused for that.
    pub beyond: Option<ShownItem>,
}

/// The keys with one more at their end.
fn with_key(alloc: Global, keys: &[u32], key: u32) -> Result<Vec<u32>, Memory>
    requires { length keys.now ≤ 64 }
    ensures { IfOk result (λ longer. longer.items ≡ keys.now ++ key ∷ []) }
{
    let Ok(mut longer) = Vec::with_capacity(alloc, keys.len() + 1) else {
        return Err(Memory);
    };
    if longer.extend_from_slice(keys).is_err() || longer.push(key).is_err() {
        return Err(Memory);
    }
    Ok(longer)
}

/// The keys of a known shape with one more at their end, which is refused where the shape has it, or has 64 others.
fn longer(alloc: Global, known: &KnownShapes, shape: u32, key: u32) -> Result<Vec<u32>, GrowRefused>
    requires known { known_keys known.now shape ≢ None }
    requires short { (keys : _) → known_keys known.now shape ≡ Some keys → length keys ≤ 64 }
    ensures longer { IfOk result (λ longer. (keys : _) → known_keys known.now shape ≡ Some keys →
        (longer.items ≡ keys ++ key ∷ []) × (length keys < 64) × (¬ (Contains keys key))) }
    ensures present { (keys : _) → known_keys known.now shape ≡ Some keys →
        (result ≡ Err GrowRefused.Present) ↔ Contains keys key }
    ensures deep { (keys : _) → known_keys known.now shape ≡ Some keys →
        (result ≡ Err GrowRefused.Deep) ↔ ((length keys ≡ 64) × (¬ (Contains keys key))) }
    ensures many { (index : ℕ) → result ≢ Err (GrowRefused.Many index) }
{
    let Some(keys) = known.keys(shape) else {
        unreachable!()
    };
    if keys.contains(&key) {
        return Err(GrowRefused::Present);
    }
    if keys.len() == 64 {
        return Err(GrowRefused::Deep);
    }
    match with_key(alloc, keys, key) {
        Ok(longer) => Ok(longer),
        Err(Memory) => Err(GrowRefused::Memory),
    }
}

impl Maker {
    /// Why no shape was made, where a walk came to none.
    fn refuse(&mut self, cells: &Cells, unmade: Unmade) -> GrowRefused
        requires unmade { IsUnmade cells.now unmade }
        requires beyond { IfSome self.old.beyond (Shown (name_of cells.now)) }
        ensures beyond { IfSome self.new.beyond (Shown (name_of cells.now)) }
        ensures same { (self.new.sights ≡ self.old.sights) × (self.new.known ≡ self.old.known) }
        ensures many { (index : ℕ) → result ≡ GrowRefused.Many index →
            (last_in (name_of cells.now) ≤ index) × (index_of self.new.beyond ≡ Some index) }
        ensures alone { ((index : ℕ) → result ≢ GrowRefused.Many index) → self.new.beyond ≡ self.old.beyond }
        ensures other { (result ≢ GrowRefused.Present) × (result ≢ GrowRefused.Deep) }
    {
        match unmade {
            Unmade::Many(item) => {
                let index = item.index() as u64;
                self.beyond = Some(item);
                GrowRefused::Many { index }
            }
            Unmade::Memory => GrowRefused::Memory,
        }
    }

    /// A shape more is known, which has these keys by what was read.
    #[tactic(auto, using(crate::proofs::growers_laws::GrowingLaws::Stands_learned_either, crate::proofs::growers_laws::GrowingLaws::knows_learned_either, crate::proofs::growers_laws::GrowingLaws::kept_learned_either, crate::proofs::growers_laws::GrowingLaws::others_learned_either))]
    fn learn(&mut self, child: u32, keys: Vec<u32>) -> Result<(), Memory>
        requires lists { Lists (edges_of self.old.sights) child keys.items }
        requires short { length keys.items ≤ 64 }
        requires distinct { HasNoKeyTwice keys.items }
        ensures stands { (name : _) → Stands name self.old.sights self.old.known → AreOfTable name keys.items →
            Stands name self.new.sights self.new.known }
        ensures beyond { self.new.beyond ≡ self.old.beyond }
        ensures known { (name : _) → Stands name self.old.sights self.old.known →
            OnOk result (known_keys self.new.known child ≡ Some keys.items) }
        ensures kept { (other : ℕ) (others : _) → known_keys self.old.known other ≡ Some others →
            known_keys self.new.known other ≡ Some others }
        ensures others { (other : ℕ) → other ≢ child →
            known_keys self.new.known other ≡ known_keys self.old.known other }
        ensures same { OnErr result (self.new.known ≡ self.old.known) }
    {
        self.known.learn(child, keys)
    }

    /// The shape with the key added, made by this call or another. It may wait.
    pub(crate) fn grow<R: Wait, G: GrowHook>(
        &mut self,
        rt: &R,
        hook: &G,
        alloc: Global,
        cells: &Cells,
        shape: u32,
        key: u32,
    ) -> Result<u32, GrowRefused>
        requires stands { Stands (name_of cells.now) self.old.sights self.old.known }
        requires beyond { IfSome self.old.beyond (Shown (name_of cells.now)) }
        requires known { known_keys self.old.known shape ≢ None }
        requires of_table { key < keys_in (name_of cells.now) }
        ensures stands { Stands (name_of cells.now) self.new.sights self.new.known }
        ensures beyond { IfSome self.new.beyond (Shown (name_of cells.now)) }
        ensures last { IfOk result (λ child. child ≤ last_in (name_of cells.now)) }
        ensures found { IfOk result (λ child. (keys : _) → known_keys self.old.known shape ≡ Some keys →
            known_keys self.new.known child ≡ Some (keys ++ key ∷ [])) }
        ensures kept { (other : ℕ) (keys : _) → known_keys self.old.known other ≡ Some keys →
            known_keys self.new.known other ≡ Some keys }
        ensures others { IfOk result (λ child. (other : ℕ) → other ≢ child →
            known_keys self.new.known other ≡ known_keys self.old.known other) }
        ensures refused { OnErr result (self.new.known ≡ self.old.known) }
        ensures present { (keys : _) → known_keys self.old.known shape ≡ Some keys →
            (result ≡ Err GrowRefused.Present) ↔ Contains keys key }
        ensures deep { (keys : _) → known_keys self.old.known shape ≡ Some keys →
            (result ≡ Err GrowRefused.Deep) ↔ ((length keys ≡ 64) × (¬ (Contains keys key))) }
        ensures many { (index : ℕ) → result ≡ Err (GrowRefused.Many index) →
            (last_in (name_of cells.now) ≤ index) × (index_of self.new.beyond ≡ Some index) }
        ensures alone { ((index : ℕ) → result ≢ Err (GrowRefused.Many index)) → self.new.beyond ≡ self.old.beyond }
    {
        let longer = longer(alloc, &self.known, shape, key)?;
        let sought = Sought { shape, key };
        match self.sights.walk(rt, hook, cells, sought) {
            Ok(child) => match self.learn(child, longer) {
                Ok(()) => Ok(child),
                Err(Memory) => Err(GrowRefused::Memory),
            },
            Err(unmade) => Err(self.refuse(cells, unmade)),
        }
    }
}
