//! The shapes of a host's paths, or why these are refused. It knows no heap.
ghost use Rattle.std.specs.Prelude.{◌≡◌, ◌≤◌, Err, IfOk, IsOkUnless, None, OnOk, Some, length, position};
ghost use Rattle.tide.specs.Sizes.{AreWithin, is_no_path, refusal_of, refusal_of_paths};
ghost use Rattle.tide.specs.declared.sizes.Refused.{Refused};
ghost use Rattle.tide.specs.declared.sizes.Refused.TheVariants as refused;
ghost use Rattle.tide_server.specs.tide_shape.Lists.{lists_of};
ghost use Rattle.tide_server.specs.tide_shape.Shapes.{shapes_of_paths};

use crate::sizes::{Refused, Sizes};
use std::alloc::Global;
use tide_server::{Paths, Shapes};
use tide_shape::ShapesRefused;

/// Whether a path has no key, or more than 64.
fn is_no_path(path: &[u32]) -> bool
    ensures { result ≡ is_no_path path.now }
{
    path.len() < 1 || path.len() > 64
}

/// The first path that has no key, or more than 64.
fn odd_path(paths: &Paths) -> Option<u32>
    ensures first { result ≡ position is_no_path paths.now }
    ensures few { length paths.now ≤ 64 }
{
    for path in 0..paths.len() {
        if is_no_path(paths.path(path)) {
            return Some(path);
        }
    }
    None
}

/// The shapes of some paths, or why there are none.
fn shapes_of(alloc: Global, paths: &Paths) -> Result<Shapes, Refused>
    ensures refused { (why : Refused) → (refusal_of_paths paths.now ≡ Some why) → result ≡ Err why }
    ensures made { refusal_of_paths paths.now ≡ None → IsOkUnless result refused.Memory }
    ensures taken { OnOk result (refusal_of_paths paths.now ≡ None) }
    ensures shapes { IfOk result (λ shapes. lists_of shapes ≡ shapes_of_paths paths.now) }
{
    if let Some(path) = odd_path(paths) {
        return Err(Refused::Path { path });
    }
    match Shapes::new(alloc, paths) {
        Ok(shapes) => Ok(shapes),
        Err(ShapesRefused::DoubleKey { path }) => Err(Refused::DoubleKey { path }),
        Err(ShapesRefused::Memory) => Err(Refused::Memory),
    }
}

/// The shapes of a heap of these sizes, or why the sizes or the paths are refused.
pub(crate) fn shapes_for(alloc: Global, sizes: &Sizes, paths: &Paths) -> Result<Shapes, Refused>
    ensures refused { (why : Refused) → (refusal_of sizes.now paths.now ≡ Some why) → result ≡ Err why }
    ensures made { refusal_of sizes.now paths.now ≡ None → IsOkUnless result refused.Memory }
    ensures taken { OnOk result (refusal_of sizes.now paths.now ≡ None) }
    ensures within { OnOk result (AreWithin sizes.now) }
    ensures shapes { IfOk result (λ shapes. lists_of shapes ≡ shapes_of_paths paths.now) }
{
    if let Some(refused) = sizes.refusal() {
        return Err(refused);
    }
    shapes_of(alloc, paths)
}
