//! `HeapShapes`: the shapes of a heap, as its rule needs them: the lists of their keys. It has no function.
ghost use Rattle.tide_model.specs.Refused.{ShapeLists};

use tide_shape::ShapeTable;

/// The lists of keys of a heap's shapes. Every `ShapeTable` has them.
pub trait HeapShapes {
    ghost lists: { Self → ShapeLists };
}

impl<S: ShapeTable> HeapShapes for S {
    ghost lists = { λ table. S.lists table };
}
