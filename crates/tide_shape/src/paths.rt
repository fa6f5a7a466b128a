//! Declared paths, as they were declared: a path may still name a key twice.
ghost use Rattle.std.specs.Prelude.{◌≡◌, ◌<◌, ◌≤◌, [], ◌∷◌, ◌++◌, Some, length, slice_get, OnErr, OnOk};

use std::alloc::Global;
use std::marker::Model;
use tide_model::Memory;

/// Declared paths of property keys, in order: 64 at most. Contracts see the keys of each.
#[derive(Drop)]
pub struct Paths {
    paths: Vec<Vec<u32>>,
}

impl Model for Paths {
    ghost use Rattle.std.specs.Prelude.{ℕ, ◌≤◌, List, length, map};

    ghost Value = { List (List ℕ) };

    ghost view = { λ p. map (λ path. path.items) p.paths.items };

    ghost invariant = { λ p. length p.paths.items ≤ 64 };
}

impl Paths {
    /// No path.
    pub fn new(alloc: Global) -> Self
        ensures { result ≡ [] }
    {
        Paths {
            paths: Vec::new(alloc),
        }
    }

    /// Puts a path behind the others, of which there are 63 at most. Where memory lacks, all is as before.
    pub fn push(&mut self, path: Vec<u32>) -> Result<(), Memory>
        requires { length self.old < 64 }
        ensures ok { OnOk result (self.new ≡ self.old ++ path.items ∷ []) }
        ensures err { OnErr result (self.new ≡ self.old) }
    {
        self.paths.push(path)?;
        Ok(())
    }

    /// How many paths there are.
    pub fn len(&self) -> u32
        ensures count { result ≡ length self.now }
        ensures few { result ≤ 64 }
    {
        self.paths.len() as u32
    }

    /// The keys of the path with the number `p`, which is below `len`.
    pub fn path(&self, p: u32) -> &[u32]
        requires { p < length self.now }
        ensures { slice_get self.now p ≡ Some result.now }
    {
        self.paths[p as usize].as_slice()
    }
}
