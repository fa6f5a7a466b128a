//! The tree of shapes, in which each is found from the one with a key less.
ghost use Rattle.std.specs.Prelude.{◌≡◌, ◌+◌, ◌^◌, ◌<◌, ◌≤◌, [], ◌∷◌, ◌++◌, fold, length, slice_get, Contains, IfOk, IfNone, IfSome, OnOk};
ghost use Rattle.tide_model.specs.Refused.{no_shapes};
ghost use Rattle.tide_shape.specs.ShapeTable.{keys_of};
ghost use Rattle.tide_shape.specs.Shapes.{add_if_new, beginnings};

use std::alloc::{AllocError, Global};
use std::marker::Model;

/// A shape, and where those with one more key are.
#[derive(Drop)]
struct Shape {
    keys: Vec<u32>,
    /// The last key, and 0 for the empty shape.
    key: u32,
    /// The shape with one more key that was made last.
    newest_child: Option<u32>,
    /// The shape that was made before this one with another last key.
    older_sibling: Option<u32>,
}

/// The shapes, which contracts see as the list of keys of each.
#[derive(Drop)]
pub(crate) struct Tree {
    shapes: Vec<Shape>,
}

impl Model for Tree {
    ghost use Rattle.std.specs.Prelude.{List, ℕ};
    ghost use Rattle.tide_shape.specs.Tree.{key_lists, IsTree};

    ghost Value = { List (List ℕ) };

    ghost view = { λ t. key_lists t.shapes.items };

    ghost invariant = { λ t. IsTree t.shapes.items };
}

/// The keys with one more at their end.
fn with_key(alloc: Global, keys: &[u32], key: u32) -> Result<Vec<u32>, AllocError>
    ensures { IfOk result (λ longer. longer.items ≡ keys.now ++ key ∷ []) }
{
    let mut longer = Vec::with_capacity(alloc, keys.len() + 1)?;
    longer.extend_from_slice(keys)?;
    longer.push(key)?;
    Ok(longer)
}

impl Tree {
    /// The empty shape alone.
    pub fn new(alloc: Global) -> Result<Tree, AllocError>
        ensures { IfOk result (λ tree. tree ≡ no_shapes) }
    {
        let mut shapes = Vec::new(alloc);
        shapes.push(Shape {
            keys: Vec::new(alloc),
            key: 0,
            newest_child: None,
            older_sibling: None,
        })?;
        Ok(Tree { shapes })
    }

    /// The keys of a shape.
    pub fn keys(&self, shape: u32) -> &[u32]
        requires { shape < length self.now }
        ensures { result.now ≡ keys_of self.now shape }
    {
        self.shapes[shape as usize].keys.as_slice()
    }

    /// The shape with one more key, where there is one.
    pub fn child(&self, shape: u32, key: u32) -> Option<u32>
        requires { shape < length self.now }
        ensures added { IfSome result (λ child. slice_get self.now child ≡ Some (keys_of self.now shape ++ key ∷ [])) }
        ensures none { IfNone result (¬ (Contains self.now (keys_of self.now shape ++ key ∷ []))) }
    {
        let mut at = self.shapes[shape as usize].newest_child;
        while let Some(child) = at {
            let other = &self.shapes[child as usize];
            if other.key == key {
                return Some(child);
            }
            at = other.older_sibling;
        }
        None
    }

    /// Makes the shape with one more key, and answers its number.
    fn add_child(&mut self, alloc: Global, shape: u32, key: u32) -> Result<u32, AllocError>
        requires there { shape < length self.old }
        requires room { length self.old < 2 ^ 32 }
        requires fresh { ¬ (Contains self.old (keys_of self.old shape ++ key ∷ [])) }
        ensures shapes { OnOk result (self.new ≡ self.old ++ (keys_of self.old shape ++ key ∷ []) ∷ []) }
        ensures child { IfOk result (λ child. slice_get self.new child ≡ Some (keys_of self.old shape ++ key ∷ [])) }
    {
        let added = self.shapes.len() as u32;
        let parent = &self.shapes[shape as usize];
        let child = Shape {
            keys: with_key(alloc, parent.keys.as_slice(), key)?,
            key,
            newest_child: None,
            older_sibling: parent.newest_child,
        };
        self.shapes.push(child)?;
        self.shapes[shape as usize].newest_child = Some(added);
        Ok(added)
    }

    /// The shape with one more key, which is made where there is none.
    fn child_or_new(&mut self, alloc: Global, shape: u32, key: u32) -> Result<u32, AllocError>
        requires there { shape < length self.old }
        requires room { length self.old < 2 ^ 32 }
        ensures shapes { OnOk result (self.new ≡ add_if_new self.old (keys_of self.old shape ++ key ∷ [])) }
        ensures child { IfOk result (λ child. slice_get self.new child ≡ Some (keys_of self.old shape ++ key ∷ [])) }
    {
        match self.child(shape, key) {
            Some(child) => Ok(child),
            None => self.add_child(alloc, shape, key),
        }
    }

    /// Makes each beginning of the path that isn't there. After an `Err` some of them may be there.
    pub fn add_path(&mut self, alloc: Global, path: &[u32]) -> Result<(), AllocError>
        requires some { 0 < length self.old }
        requires empty { slice_get self.old 0 ≡ Some [] }
        requires room { length self.old + length path.now ≤ 2 ^ 32 }
        ensures { OnOk result (self.new ≡ fold add_if_new self.old (beginnings path.now)) }
    {
        let mut shape = 0;
        for key in path {
            shape = self.child_or_new(alloc, shape, *key)?;
        }
        Ok(())
    }
}
