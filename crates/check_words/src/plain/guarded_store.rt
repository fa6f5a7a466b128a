//! A plain store whose callers may ask anything: what it can't be asked is refused here.

use crate::plain::shapes::shapes_from;
use std::alloc::{AllocError, Global};
use std::marker::Model;
use tide_layout::{Layout, fits};
use tide_model::{Op, Reply};
use tide_plain::PlainStore;

/// A plain store.
#[derive(Drop)]
pub struct GuardedStore {
    layout: Layout,
    store: PlainStore,
}

impl Model for GuardedStore {
    ghost use Rattle.std.specs.Prelude.{◌≡◌};
    ghost use Rattle.tide_plain.specs.calls.Store.{layout_of};

    ghost Value = { Unit {0} };

    ghost view = { λ _. tt };

    ghost invariant = { λ c. layout_of c.store ≡ c.layout };
}

impl GuardedStore {
    /// The empty store of a layout, whose shapes are those of declared paths.
    pub fn new(alloc: Global, layout: Layout, declared: &[Vec<u32>]) -> Result<Self, AllocError> {
        let Ok(shapes) = shapes_from(alloc, declared)? else {
            return Err(AllocError);
        };
        match PlainStore::new(alloc, layout, shapes) {
            Ok(store) => Ok(GuardedStore { layout, store }),
            Err(_) => Err(AllocError),
        }
    }

    /// The layout of the store.
    pub fn layout(&self) -> &Layout {
        &self.layout
    }

    /// Makes a mutator's call, and tells what it is answered. Where the layout has no operands for it, where the
    /// mutator has retired, or where it would retire with a claim, nothing is called.
    pub fn call(&mut self, who: u32, op: Op) -> Option<Reply> {
        let is_active = who < u32::from(self.layout.mutators()) && self.store.is_active(who);
        if !is_active || !fits(&self.layout, op) {
            return None;
        }
        if op == Op::Retire && self.store.claims(who) > 0 {
            return None;
        }
        Some(self.store.call(who, op))
    }

    /// Frees the cells that nothing retains, and gives these in rising order. What the last collection kept retains
    /// too, where this one isn't full.
    pub fn collect(&mut self, alloc: Global, full: bool) -> Result<Vec<u32>, AllocError> {
        match self.store.collect(alloc, full) {
            Ok(freed) => Ok(freed),
            Err(_) => Err(AllocError),
        }
    }

    /// The array that the last call took, if it took one.
    pub fn taken(&self) -> Option<u32> {
        self.store.taken()
    }

    /// How many cells are live.
    pub fn live(&self) -> u32 {
        self.store.live()
    }

    /// How many cells or arrays of a class of the ten are free.
    pub fn free(&self, class: u8) -> Option<u32> {
        if class >= 10 {
            return None;
        }
        Some(self.store.free(class))
    }

    /// How many cells a mutator of the layout claims.
    pub fn claims(&self, who: u32) -> Option<u32> {
        if who >= u32::from(self.layout.mutators()) {
            return None;
        }
        Some(self.store.claims(who))
    }

    /// Whether the last collection swept something of a block of the layout.
    pub fn swept(&self, block: u8) -> Option<bool> {
        if u32::from(block) >= self.layout.block_count() {
            return None;
        }
        Some(self.store.swept(u32::from(block)))
    }
}
