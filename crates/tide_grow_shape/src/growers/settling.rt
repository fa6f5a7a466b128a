//! What some growers know together, settled. It sets no cell.
ghost use Rattle.std.specs.Prelude.{◌≡◌, ◌≢◌, ◌<◌, ◌≤◌, ℕ, [], All, Contains, IfOk, OnOk, Some, length, slice_get};
ghost use Rattle.tide_grow_shape.specs.growers.Grown.{Grown, IsAbove, IsKnown, Knows};
ghost use Rattle.tide_grow_shape.specs.growers.Lists.{settled_lists};

use crate::growers::grower::Grower;
use crate::growers::numbered::Numbered;
use crate::growers::settled::Settled;
use crate::growers::table::GrowShapes;
use std::alloc::Global;
use tide_model::Memory;

#[tactic(auto, using(crate::proofs::growers_laws::TogetherLaws::merges_nobody, crate::proofs::growers_laws::TogetherLaws::merges_one, crate::proofs::growers_laws::TogetherLaws::merges_each))]
/// One grower that knows what all of them know.
fn together(alloc: Global, table: &GrowShapes, growers: &[Grower]) -> Result<Grower, Memory>
    requires { All (λ grower. grower.table ≡ table.now) growers.now }
    ensures known { IfOk result (λ all. (grower : _) (shape : ℕ) (keys : _) → Contains growers.now grower →
        Knows grower shape keys → Knows all shape keys) }
    ensures only { IfOk result (λ all. (shape : ℕ) (keys : _) → Knows all shape keys → keys ≢ [] →
        IsKnown growers.now shape keys) }
{
    let mut all = table.grower(alloc)?;
    for grower in growers {
        all.merge(alloc, table, grower)?;
    }
    Ok(all)
}

#[tactic(auto, using(crate::proofs::growers_laws::TogetherLaws::Grown_all, crate::proofs::growers_laws::TogetherLaws::above_all))]
/// The table of the shapes that some growers know. It gives each number the keys that each of them knows for it,
/// whatever steps their threads made in whatever order, and no keys to others; it has no number above theirs.
pub fn settle(alloc: Global, table: &GrowShapes, growers: &[Grower]) -> Result<Settled, Memory>
    requires own { All (λ grower. grower.table ≡ table.now) growers.now }
    ensures grown { OnOk result (Grown growers.now) }
    ensures known { IfOk result (λ settled. (grower : _) (shape : ℕ) (keys : _) → Contains growers.now grower →
        Knows grower shape keys → slice_get (settled_lists settled) shape ≡ Some keys) }
    ensures only { IfOk result (λ settled. (shape : ℕ) (keys : _) →
        slice_get (settled_lists settled) shape ≡ Some keys → keys ≢ [] → IsKnown growers.now shape keys) }
    ensures last { IfOk result (λ settled. (bound : ℕ) → 0 < bound → All (λ grower. IsAbove grower bound) growers.now →
        length (settled_lists settled) ≤ bound) }
{
    let all = together(alloc, table, growers)?;
    all.holds_together();
    let numbered = Numbered::new(alloc, &all)?;
    numbered.holds_together();
    Ok(Settled { numbered })
}
