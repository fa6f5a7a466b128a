//! The shapes that declared paths have. How they are found stands in the tree.
ghost use Rattle.std.specs.Prelude.{◌≡◌, ◌==◌, ◌↔◌, ◌<◌, ◌≤◌, ℕ, Some, position, length, All, IfOk, IfSome, Err};
ghost use Rattle.tide_shape.specs.ShapeTable.{IsShapeTable};
ghost use Rattle.tide_shape.specs.Shapes.{first_double, names_twice, shapes_of_paths, IsPath};

use crate::tree::Tree;
use crate::{Paths, ShapeTable, ShapesRefused};
use std::alloc::{AllocError, Global};

/// The table of the shapes that declared paths have.
#[derive(Drop)]
pub struct Shapes {
    tree: Tree,
    pub ghost is_table: { IsShapeTable tree },
}

/// The path names a key twice.
fn has_double(path: &[u32]) -> bool
    ensures { result ≡ names_twice path.now }
{
    for (at, key) in path.iter().enumerate() {
        if path[at + 1..].contains(key) {
            return true;
        }
    }
    false
}

/// The first path that names a key twice, where one does.
pub fn double_path(paths: &Paths) -> Option<u32>
    ensures { result ≡ first_double paths.now }
{
    for path in 0..paths.len() {
        if has_double(paths.path(path)) {
            return Some(path);
        }
    }
    None
}

/// The shapes of some paths, in the order in which the paths meet them new.
fn tree_of(alloc: Global, paths: &Paths) -> Result<Tree, AllocError>
    requires few { length paths.now ≤ 64 }
    requires sized { All IsPath paths.now }
    ensures { IfOk result (λ tree. tree ≡ shapes_of_paths paths.now) }
{
    let mut tree = Tree::new(alloc)?;
    for path in 0..paths.len() {
        tree.add_path(alloc, paths.path(path))?;
    }
    Ok(tree)
}

/// The place of the key among some, where it is one of them.
fn place_in(keys: &[u32], key: u32) -> Option<usize>
    ensures first { result ≡ position (λ other. other == key) keys.now }
    ensures within { IfSome result (λ place. place < length keys.now) }
{
    keys.iter().position(|other| *other == key)
}

impl Shapes {
    ghost use Rattle.tide_shape.specs.Lists.{lists_of};

    /// The shapes of at most 64 paths of 1 to 64 keys each. They are numbered in the order in which the paths, from
    /// first to last and from their front, meet them new.
    pub fn new(alloc: Global, paths: &Paths) -> Result<Shapes, ShapesRefused>
        requires few { length paths.now ≤ 64 }
        requires sized { All IsPath paths.now }
        ensures shapes { IfOk result (λ shapes. lists_of shapes ≡ shapes_of_paths paths.now) }
        ensures double { (path : ℕ) → (result ≡ Err (ShapesRefused.DoubleKey path)) ↔ (first_double paths.now ≡
            Some path) }
    {
        if let Some(path) = double_path(paths) {
            return Err(ShapesRefused::DoubleKey { path });
        }
        match tree_of(alloc, paths) {
            Ok(tree) => Ok(Shapes { tree }),
            Err(_) => Err(ShapesRefused::Memory),
        }
    }
}

impl ShapeTable for Shapes {
    ghost lists = { λ shapes. shapes.tree };

    fn next(&self, shape: u32, key: u32) -> Option<u32> {
        self.tree.child(shape, key)
    }

    fn place(&self, shape: u32, key: u32) -> Option<u32> {
        let place = place_in(self.tree.keys(shape), key)?;
        Some(place as u32)
    }

    fn count(&self, shape: u32) -> u32 {
        self.tree.keys(shape).len() as u32
    }

    fn key_at(&self, shape: u32, place: u32) -> u32 {
        self.tree.keys(shape)[place as usize]
    }

    ghost is_table = { λ shapes. shapes.is_table };
}
