//! Lists of keys by the numbers of their shapes, and which shape has one key more than another. It sets no cell.
ghost use Rattle.std.specs.Prelude.{◌≡◌, ◌≢◌, ◌<◌, ◌≤◌, ◌+◌, ◌^◌, ℕ, [], ◌∷◌, ◌++◌, Contains, IfNone, IfOk, IfSome, OnOk, Some, length, map, slice_get, unwrap_or};
ghost use Rattle.tide_grow_shape.specs.growers.Grown.{IsAbove, Knows, known_keys};
ghost use Rattle.tide_grow_shape.specs.growers.Numbered.{AreChildren, AreListed, AreLists, IsParent};
ghost use Rattle.tide_shape.specs.ShapeTable.{IsShapeTable, keys_of};

use crate::growers::grower::Grower;
use crate::growers::known::copied;
use std::alloc::Global;
use std::collections::HashMap;
use std::marker::Model;
use tide_model::Memory;

/// The lists of all numbers, and the shapes by their parents and last keys. Contracts see the lists.
#[derive(Drop)]
pub(crate) struct Numbered {
    lists: Vec<Vec<u32>>,
    children: HashMap<u64, u32>,
}

impl Model for Numbered {
    ghost use Rattle.tide_model.specs.Refused.{ShapeLists};

    ghost Value = { ShapeLists };

    ghost use Rattle.std.specs.Prelude.{map};
    ghost use Rattle.tide_grow_shape.specs.growers.Numbered.{IsNumbered};

    ghost view = { λ n. map (λ keys. keys.items) n.lists.items };

    ghost invariant = { λ n. IsNumbered (map (λ keys. keys.items) n.lists.items) n.children };
}

/// The number of a shape with a key.
fn pair_number(shape: u32, key: u32) -> u64
    ensures { result ≡ Rattle.tide_grow_shape.specs.growers.Numbered.pair_number shape key }
{
    (shape as u64) * 4294967296 + key as u64
}

/// One list more.
fn put(lists: &mut Vec<Vec<u32>>, list: Vec<u32>) -> Result<(), Memory>
    ensures { OnOk result (lists.new.items ≡ lists.old.items ++ list ∷ []) }
{
    match lists.push(list) {
        Ok(()) => Ok(()),
        Err(_) => Err(Memory),
    }
}

impl Grower {
    /// The shape that a known one has one key more than, and that key. The empty shape has none.
    fn parent(&self, shape: u32) -> Option<(u32, u32)>
        ensures some { IfSome result (λ parent. IsParent self.now shape parent.0 parent.1) }
        ensures none { IfNone result ((keys : _) → Knows self.now shape keys → keys ≡ []) }
    {
        match self.maker.sights.of_child(shape) {
            Some(sight) => Some((sight.parent, sight.key)),
            None => None,
        }
    }

    /// The lowest number that is above that of each known shape.
    fn past(&self) -> u64
        ensures above { IsAbove self.now result }
        ensures lowest { (bound : ℕ) → IsAbove self.now bound → result ≤ bound }
        ensures fits { result ≤ 2 ^ 32 }
    {
        self.maker.known.past()
    }

    /// The keys of a number, which has none where no shape is known by it.
    fn list(&self, alloc: Global, shape: u32) -> Result<Vec<u32>, Memory>
        ensures { IfOk result (λ list. list.items ≡ unwrap_or (known_keys self.now.known shape) []) }
    {
        match self.keys(shape) {
            Some(keys) => copied(alloc, keys),
            None => Ok(Vec::new(alloc)),
        }
    }

    /// The list of each number, which is empty where no shape is known by it.
    #[tactic(auto, using(crate::proofs::growers_laws::NumberedLaws::laid_none))]
    fn lists(&self, alloc: Global) -> Result<Vec<Vec<u32>>, Memory>
        ensures listed { IfOk result (λ lists. AreListed self.now (map (λ keys. keys.items) lists.items)) }
        ensures all { IfOk result (λ lists. IsAbove self.now (length (map (λ keys. keys.items) lists.items))) }
        ensures last { IfOk result (λ lists. (bound : ℕ) → IsAbove self.now bound →
            length (map (λ keys. keys.items) lists.items) ≤ bound) }
    {
        let mut lists = Vec::new(alloc);
        for shape in 0..self.past() {
            let list = self.list(alloc, shape as u32)?;
            put(&mut lists, list)?;
        }
        Ok(lists)
    }

    /// Where a known shape is found by its parent and its last key.
    fn link(&self, children: &mut HashMap<u64, u32>, shape: u32) -> Result<(), Memory>
        requires { AreChildren self.now shape children.old }
        ensures { OnOk result (AreChildren self.now (shape + 1) children.new) }
    {
        if self.keys(shape).is_none() {
            return Ok(());
        }
        let Some((parent, key)) = self.parent(shape) else {
            return Ok(());
        };
        match children.insert(pair_number(parent, key), shape) {
            Ok(_) => Ok(()),
            Err(_) => Err(Memory),
        }
    }

    #[tactic(auto, using(crate::proofs::growers_laws::NumberedLaws::children_empty, crate::proofs::growers_laws::NumberedLaws::children_all))]
    /// Where each known shape is found by its parent and its last key.
    fn children(&self, alloc: Global) -> Result<HashMap<u64, u32>, Memory>
        ensures { IfOk result (λ children. (past : ℕ) → AreChildren self.now past children) }
    {
        let mut children = HashMap::new(alloc);
        for shape in 0..self.past() {
            self.link(&mut children, shape as u32)?;
        }
        Ok(children)
    }
}

impl Numbered {
    /// The lists of what a grower knows.
    pub(crate) fn new(alloc: Global, all: &Grower) -> Result<Numbered, Memory>
        ensures { IfOk result (AreLists all.now) }
    {
        all.holds_together();
        Ok(Numbered {
            lists: all.lists(alloc)?,
            children: all.children(alloc)?,
        })
    }

    /// The lists are a table of shapes.
    pub(crate) fn holds_together(&self)
        ensures { IsShapeTable self.now }
    {
        let _ = &self.lists;
    }

    /// How many numbers there are.
    pub(crate) fn len(&self) -> usize
        ensures { result ≡ length self.now }
    {
        self.lists.len()
    }

    /// The keys of a shape.
    pub(crate) fn keys(&self, shape: u32) -> &[u32]
        requires { shape < length self.now }
        ensures { result.now ≡ keys_of self.now shape }
    {
        self.lists[shape as usize].as_slice()
    }

    /// The number by which the children of a shape are found: 0 where it has no key.
    fn as_parent(&self, shape: u32) -> u32
        requires { shape < length self.now }
        ensures none { keys_of self.now shape ≡ [] → result ≡ 0 }
        ensures some { keys_of self.now shape ≢ [] → result ≡ shape }
    {
        if self.keys(shape).is_empty() {
            0
        } else {
            shape
        }
    }

    /// The shape with one more key, where there is one. Of the numbers that have no key, 0 has all children.
    pub(crate) fn child(&self, shape: u32, key: u32) -> Option<u32>
        requires { shape < length self.now }
        ensures added { IfSome result (λ child. slice_get self.now child ≡ Some (keys_of self.now shape ++ key ∷ [])) }
        ensures none { IfNone result (¬ (Contains self.now (keys_of self.now shape ++ key ∷ []))) }
    {
        let from = self.as_parent(shape);
        self.children.get(&pair_number(from, key)).copied()
    }
}
