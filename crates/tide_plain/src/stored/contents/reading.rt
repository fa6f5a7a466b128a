//! What is stored of one thing. Nothing here changes anything.
ghost use Rattle.std.specs.Prelude.{◌≡◌, ◌<◌, ℕ, length};
ghost use Rattle.std.specs.List.{slice_index_or};
ghost use Rattle.tide_model.specs.declared.val.Val.TheVariants.{Empty};

use crate::parts::Pair;
use crate::statuses::ArrayStatus;
use crate::stored::contents::Contents;
use tide_model::Val;
use tide_shape::ShapeTable;

impl Contents {
    ghost use Rattle.tide_model.specs.Layout.{array_count};
    ghost use Rattle.tide_model.specs.References.{IsLive, RefsAreLive};
    ghost use Rattle.tide_model.specs.State.{is_live};
    ghost use Rattle.tide_plain.specs.stored.Contents.{state_of};
    ghost use Rattle.tide_plain.specs.parts.Pairs.{pairs_of, IsDistinctPairs};
    ghost use Rattle.tide_plain.specs.statuses.Statuses.{status_of};

    /// Whether a mutator is active.
    pub fn is_active(&self, who: u32) -> bool
        requires { who < self.now.layout.mutators }
        ensures { result ≡ (state_of self.now).active who }
    {
        self.mutators.stored(who).is_active
    }

    /// What a mutator's registers hold.
    pub fn registers(&self, who: u32) -> &[Val]
        requires { who < self.now.layout.mutators }
        ensures { (register : ℕ) → slice_index_or result.now register Empty ≡
            (state_of self.now).registers who register }
    {
        &self.mutators.stored(who).registers
    }

    /// What a mutator's register holds.
    pub fn register(&self, who: u32, register: u8) -> Val
        requires mutator { who < self.now.layout.mutators }
        requires register { register < self.now.layout.registers }
        ensures { result ≡ (state_of self.now).registers who register }
    {
        self.mutators.stored(who).registers[usize::from(register)]
    }

    /// The cells that a mutator claims, the oldest claim first.
    pub fn claims(&self, who: u32) -> &[u32]
        requires { who < self.now.layout.mutators }
        ensures { result.now ≡ (state_of self.now).claims who }
    {
        self.mutators.stored(who).claims.as_slice()
    }

    /// How many cells a mutator claims.
    pub fn claim_count(&self, who: u32) -> u32
        requires { who < self.now.layout.mutators }
        ensures { result ≡ length ((state_of self.now).claims who) }
    {
        self.mutators.stored(who).claims.len() as u32
    }

    /// What the strong handles hold.
    pub fn strong_handles(&self) -> &[Val]
        ensures all { length result.now ≡ self.now.layout.strong }
        ensures held { (handle : ℕ) → slice_index_or result.now handle Empty ≡ (state_of self.now).strong handle }
    {
        self.handles.strong()
    }

    /// What the weak handles hold.
    pub fn weak_handles(&self) -> &[Val]
        ensures all { length result.now ≡ self.now.layout.weak }
        ensures held { (handle : ℕ) → slice_index_or result.now handle Empty ≡ (state_of self.now).weak handle }
    {
        self.handles.weak()
    }

    /// Whether a cell is live.
    pub fn is_live(&self, cell: u32) -> bool
        ensures { result ≡ is_live ((state_of self.now).cells cell).status }
    {
        self.cells.is_live(cell)
    }

    /// What the slots of a live cell hold.
    pub fn slots(&self, cell: u32) -> &[Val]
        requires { IsLive (state_of self.now) cell }
        ensures { (slot : ℕ) → slice_index_or result.now slot Empty ≡ ((state_of self.now).cells cell).slots slot }
    {
        &self.cells.stored(cell).slots
    }

    /// What a slot of a live cell holds.
    pub fn slot(&self, cell: u32, slot: u8) -> Val
        requires live { IsLive (state_of self.now) cell }
        requires slot { slot < 16 }
        ensures { result ≡ ((state_of self.now).cells cell).slots slot }
    {
        self.cells.stored(cell).slots[usize::from(slot)]
    }

    /// How many keys a live cell has.
    pub fn key_count(&self, cell: u32) -> u32
        requires { IsLive (state_of self.now) cell }
        ensures { result ≡ length ((state_of self.now).cells cell).keys }
    {
        self.shapes.count(self.cells.stored(cell).shape)
    }

    /// What the properties of a live cell are, in the order of its keys.
    pub fn properties(&self, cell: u32) -> &[Val]
        requires references { RefsAreLive (state_of self.now) }
        requires live { IsLive (state_of self.now) cell }
        ensures all { length result.now ≡ length ((state_of self.now).cells cell).keys }
        ensures held { (place : ℕ) → place < length result.now →
            slice_index_or result.now place Empty ≡ ((state_of self.now).cells cell).properties place }
    {
        let count = self.key_count(cell) as usize;
        match self.cells.stored(cell).array {
            Some(array) => &self.arrays.elements(array)[..count],
            None => &[],
        }
    }

    /// The places of a live table, each of which has a pair or none.
    pub fn pairs(&self, cell: u32) -> &[Option<Pair>]
        requires { IsLive (state_of self.now) cell }
        ensures pairs { pairs_of result.now ≡ ((state_of self.now).cells cell).pairs }
        ensures distinct { IsDistinctPairs result.now }
    {
        &self.cells.stored(cell).pairs
    }

    /// The group of a live cell, 0 for none.
    pub fn group(&self, cell: u32) -> u32
        requires { IsLive (state_of self.now) cell }
        ensures { result ≡ ((state_of self.now).cells cell).group }
    {
        self.cells.stored(cell).group
    }

    /// The array of a live cell, if it has one.
    pub fn array(&self, cell: u32) -> Option<u32>
        requires { IsLive (state_of self.now) cell }
        ensures { result ≡ ((state_of self.now).cells cell).array }
    {
        self.cells.stored(cell).array
    }

    /// What became of an array.
    pub fn array_status(&self, array: u32) -> ArrayStatus
        requires { array < array_count self.now.layout }
        ensures { status_of result ≡ (state_of self.now).arrays array }
    {
        self.arrays.status(array)
    }
}
