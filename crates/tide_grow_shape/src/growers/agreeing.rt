//! Growers of one table agree, whatever the order in which they read it; and one learns what another knows.
ghost use Rattle.std.specs.Prelude.{◌≡◌, [], ◌∷◌, ◌⊎◌, ℕ, OnOk, Some};
ghost use Rattle.tide_grow_shape.specs.transitions.Cells.{name_of};
ghost use Rattle.tide_grow_shape.specs.growers.Grown.{Grown, Knows, known_keys};
ghost use Rattle.tide_grow_shape.specs.growers.Stands.{Stands};

use crate::growers::grower::Grower;
use crate::growers::maker::Maker;
use crate::growers::table::GrowShapes;
use crate::transitions::Cells;
use std::alloc::Global;
use tide_model::Memory;

impl Maker {
    /// All that another of the same table has read and knows. After an `Err` some of it may be known.
    fn merge(&mut self, alloc: Global, cells: &Cells, other: &Maker) -> Result<(), Memory>
        requires mine { Stands (name_of cells.now) self.old.sights self.old.known }
        requires theirs { Stands (name_of cells.now) other.now.sights other.now.known }
        ensures stands { Stands (name_of cells.now) self.new.sights self.new.known }
        ensures beyond { self.new.beyond ≡ self.old.beyond }
        ensures kept { (shape : ℕ) (keys : _) → known_keys self.old.known shape ≡ Some keys →
            known_keys self.new.known shape ≡ Some keys }
        ensures merged { OnOk result ((shape : ℕ) (keys : _) → known_keys other.now.known shape ≡ Some keys →
            known_keys self.new.known shape ≡ Some keys) }
        ensures only { (shape : ℕ) (keys : _) → known_keys self.new.known shape ≡ Some keys →
            (known_keys self.old.known shape ≡ Some keys) ⊎ (known_keys other.now.known shape ≡ Some keys) }
    {
        self.sights.merge(cells, other.sights.as_slice())?;
        self.known.learn_all(alloc, &other.known)
    }
}

impl Grower {
    /// All that another grower of the same table knows. After an `Err` it may know some of it.
    pub(crate) fn merge(
        &mut self,
        alloc: Global,
        table: &GrowShapes,
        other: &Grower,
    ) -> Result<(), Memory>
        requires own { self.old.table ≡ table.now }
        requires theirs { other.now.table ≡ table.now }
        ensures own { self.new.table ≡ self.old.table }
        ensures kept { (shape : ℕ) (keys : _) → Knows self.old shape keys → Knows self.new shape keys }
        ensures merged { OnOk result
            ((shape : ℕ) (keys : _) → Knows other.now shape keys → Knows self.new shape keys) }
        ensures only { (shape : ℕ) (keys : _) → Knows self.new shape keys →
            Knows self.old shape keys ⊎ Knows other.now shape keys }
    {
        self.maker.merge(alloc, &table.cells, &other.maker)
    }
}

/// Two growers of one table that know the same number have the same keys for it, and two that know the same keys have
/// the same number, in whatever order all growers of the table made their steps. It changes nothing.
pub fn growers_agree(table: &GrowShapes, one: &Grower, other: &Grower)
    requires one { one.now.table ≡ table.now }
    requires other { other.now.table ≡ table.now }
    ensures { Grown (one.now ∷ other.now ∷ []) }
{
    one.maker
        .sights
        .agrees_with(&table.cells, other.maker.sights.as_slice());
}
