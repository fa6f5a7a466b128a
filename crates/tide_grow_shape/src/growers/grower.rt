//! Who makes shapes, and what it knows of them.
ghost use Rattle.std.specs.Prelude.{◌≡◌, ◌≢◌, ◌↔◌, ◌<◌, ◌≤◌, ℕ, [], ◌∷◌, ◌++◌, Contains, Err, IfOk, None, OnErr, Some, length, option_map, slice_get};
ghost use Rattle.tide_grow_shape.specs.growers.Grown.{IsKnowledge, Knows, known_keys};
ghost use Rattle.tide_grow_shape.specs.growers.Stands.{Stands};
ghost use Rattle.tide_grow_shape.specs.growers.Tables.{shape_table_of};

use crate::growers::known::KnownShapes;
use crate::growers::maker::Maker;
use crate::growers::refused::GrowRefused;
use crate::growers::table::GrowShapes;
use crate::transitions::{GrowHook, Sights};
use boxcar::tag::Tag;
use std::alloc::Global;
use std::marker::Model;
use std::sync::Wait;
use tide_model::{FreePass, Memory};

/// One maker of shapes, with what it read of its table's cells. Contracts see what it knows.
#[derive(Drop)]
pub struct Grower {
    /// Which table it is of. It takes no bytes.
    table: Tag,
    pub(crate) maker: Maker,
}

impl Model for Grower {
    ghost use Rattle.tide_grow_shape.specs.growers.Grown.{Knowledge};

    ghost Value = { Knowledge };

    ghost use Rattle.tide_grow_shape.specs.growers.Growing.{IsGrower, knowledge_of};

    ghost view = { knowledge_of };

    ghost invariant = { IsGrower };
}

impl GrowShapes {
    #[tactic(auto, using(crate::proofs::growers_laws::GrowingLaws::Stands_new))]
    /// A grower of this table, which knows the empty shape alone.
    pub fn grower(&self, alloc: Global) -> Result<Grower, Memory>
        ensures table { IfOk result (λ grower. grower.table ≡ self.now) }
        ensures known { IfOk result (λ grower. grower.known ≡ record { shape = 0; keys = [] } ∷ []) }
        ensures beyond { IfOk result (λ grower. grower.beyond ≡ None) }
    {
        Ok(Grower::of(
            self.cells.name(),
            Maker {
                sights: Sights::new(alloc),
                known: KnownShapes::new(alloc)?,
                beyond: None,
            },
        ))
    }
}

impl Grower {
    /// A grower of the table of this name.
    fn of(table: Tag, maker: Maker) -> Grower
        requires stands { Stands table.numbers maker.sights maker.known }
        requires beyond { maker.beyond ≡ None }
        ensures { result ≡ record { table = shape_table_of table.numbers; known = maker.known; beyond = None } }
    {
        Grower { table, maker }
    }

    /// What a grower knows holds together, whatever it has made: the empty shape has no key, a shape has at most 64
    /// keys and none twice, a list of keys has one number, and numbers and keys are those of its table.
    pub fn holds_together(&self)
        ensures { IsKnowledge self.now }
    {
        let _ = &self.maker;
    }

    /// The keys of a shape, where it is known.
    pub fn keys(&self, shape: u32) -> Option<&[u32]>
        ensures { option_map (λ keys. keys.now) result ≡ known_keys self.now.known shape }
    {
        self.maker.known.keys(shape)
    }

    /// How many keys a shape has that it knows.
    pub fn count(&self, shape: u32) -> u32
        requires { known_keys self.now.known shape ≢ None }
        ensures { (keys : _) → Knows self.now shape keys → result ≡ length keys }
    {
        self.holds_together();
        match self.keys(shape) {
            Some(keys) => keys.len() as u32,
            None => unreachable!(),
        }
    }

    /// The key of a shape that it knows, at a place below its count.
    pub fn key_at(&self, shape: u32, place: u32) -> u32
        requires known { known_keys self.now.known shape ≢ None }
        requires within { (keys : _) → Knows self.now shape keys → place < length keys }
        ensures { (keys : _) → Knows self.now shape keys → slice_get keys place ≡ Some result }
    {
        match self.keys(shape) {
            Some(keys) => keys[place as usize],
            None => unreachable!(),
        }
    }

    /// The shape with the key added, made by this call or another. It may wait.
    pub fn grow<R: Wait>(
        &mut self,
        rt: &R,
        alloc: Global,
        table: &GrowShapes,
        shape: u32,
        key: u32,
    ) -> Result<u32, GrowRefused>
        requires own { self.old.table ≡ table.now }
        requires known { known_keys self.old.known shape ≢ None }
        requires of_table { key < table.now.keys }
        ensures own { self.new.table ≡ self.old.table }
        ensures found { IfOk result (λ child.
            (keys : _) → Knows self.old shape keys → Knows self.new child (keys ++ key ∷ [])) }
        ensures child { IfOk result (λ child. known_keys self.new.known child ≢ None) }
        ensures last { IfOk result (λ child. child ≤ table.now.last) }
        ensures kept { (other : ℕ) (keys : _) → Knows self.old other keys → Knows self.new other keys }
        ensures others { IfOk result (λ child. (other : ℕ) → other ≢ child →
            known_keys self.new.known other ≡ known_keys self.old.known other) }
        ensures refused { OnErr result (self.new.known ≡ self.old.known) }
        ensures present { (keys : _) → Knows self.old shape keys →
            (result ≡ Err GrowRefused.Present) ↔ Contains keys key }
        ensures deep { (keys : _) → Knows self.old shape keys →
            (result ≡ Err GrowRefused.Deep) ↔ ((length keys ≡ 64) × (¬ (Contains keys key))) }
        ensures many { (index : ℕ) → result ≡ Err (GrowRefused.Many index) →
            (table.now.last ≤ index) × (self.new.beyond ≡ Some index) }
        ensures beyond { ((index : ℕ) → result ≢ Err (GrowRefused.Many index)) → self.new.beyond ≡ self.old.beyond }
    {
        self.grow_at(rt, &FreePass, alloc, table, shape, key)
    }

    /// `grow`, which may be held where it found a cell empty and comes to set it.
    pub fn grow_at<R: Wait, G: GrowHook>(
        &mut self,
        rt: &R,
        hook: &G,
        alloc: Global,
        table: &GrowShapes,
        shape: u32,
        key: u32,
    ) -> Result<u32, GrowRefused>
        requires own { self.old.table ≡ table.now }
        requires known { known_keys self.old.known shape ≢ None }
        requires of_table { key < table.now.keys }
        ensures own { self.new.table ≡ self.old.table }
        ensures found { IfOk result (λ child.
            (keys : _) → Knows self.old shape keys → Knows self.new child (keys ++ key ∷ [])) }
        ensures child { IfOk result (λ child. known_keys self.new.known child ≢ None) }
        ensures last { IfOk result (λ child. child ≤ table.now.last) }
        ensures kept { (other : ℕ) (keys : _) → Knows self.old other keys → Knows self.new other keys }
        ensures others { IfOk result (λ child. (other : ℕ) → other ≢ child →
            known_keys self.new.known other ≡ known_keys self.old.known other) }
        ensures refused { OnErr result (self.new.known ≡ self.old.known) }
        ensures present { (keys : _) → Knows self.old shape keys →
            (result ≡ Err GrowRefused.Present) ↔ Contains keys key }
        ensures deep { (keys : _) → Knows self.old shape keys →
            (result ≡ Err GrowRefused.Deep) ↔ ((length keys ≡ 64) × (¬ (Contains keys key))) }
        ensures many { (index : ℕ) → result ≡ Err (GrowRefused.Many index) →
            (table.now.last ≤ index) × (self.new.beyond ≡ Some index) }
        ensures beyond { ((index : ℕ) → result ≢ Err (GrowRefused.Many index)) → self.new.beyond ≡ self.old.beyond }
    {
        self.maker.grow(rt, hook, alloc, &table.cells, shape, key)
    }
}
