//! What a store sees of shapes.
ghost use Rattle.std.specs.Prelude.{◌≡◌, ◌<◌, ◌==◌, [], ◌∷◌, ◌++◌, Some, length, slice_get, position, Contains, IfSome, IfNone};
ghost use Rattle.tide_shape.specs.ShapeTable.{keys_of, IsShapeTable};
ghost use Rattle.tide_model.specs.Refused.{ShapeLists};

use std::marker::Sync;

/// The shapes of a store, by number. Shape 0 is the empty one.
pub trait ShapeTable: Sync {
    /// The list of keys of each shape, by its number.
    ghost lists: { Self → ShapeLists };

    /// The shape that is this one with the key added, where there is one.
    fn next(&self, shape: u32, key: u32) -> Option<u32>
        requires { shape < length (lists self.now) }
        ensures added { IfSome result (λ next.
            slice_get (lists self.now) next ≡ Some (keys_of (lists self.now) shape ++ key ∷ [])) }
        ensures none { IfNone result (¬ (Contains (lists self.now) (keys_of (lists self.now) shape ++ key ∷ []))) };

    /// The place of the key among the shape's keys, where it is one of them.
    fn place(&self, shape: u32, key: u32) -> Option<u32>
        requires { shape < length (lists self.now) }
        ensures first { result ≡ position (λ other. other == key) (keys_of (lists self.now) shape) }
        ensures there { IfSome result (λ place. slice_get (keys_of (lists self.now) shape) place ≡ Some key) }
        ensures none { IfNone result (¬ (Contains (keys_of (lists self.now) shape) key)) };

    /// How many keys the shape has, 64 at most.
    fn count(&self, shape: u32) -> u32
        requires { shape < length (lists self.now) }
        ensures { result ≡ length (keys_of (lists self.now) shape) };

    /// The shape's key at a place below its count.
    fn key_at(&self, shape: u32, place: u32) -> u32
        requires there { shape < length (lists self.now) }
        requires within { place < length (keys_of (lists self.now) shape) }
        ensures { slice_get (keys_of (lists self.now) shape) place ≡ Some result };

    ghost is_table: { (table : Self) → IsShapeTable (lists table) };
}
