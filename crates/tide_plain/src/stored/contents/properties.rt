//! Properties: where they stand, what they are, and how a cell gets one more.
ghost use Rattle.std.specs.Prelude.{◌≡◌, ◌<◌, ◌≤◌, ◌∷◌, ◌++◌, [], ℕ, Some, is_some, not, true, length, slice_get, IfErr, IfOk, IfSome, OnErr, OnOk};
ghost use Rattle.tide_model.specs.State.{free};
ghost use Rattle.tide_shape.specs.ShapeTable.{keys_of};

use crate::stored::contents::Contents;
use tide_model::Val;
use tide_shape::{ShapeTable, array_class_for, capacity};

impl Contents {
    ghost use Rattle.tide_model.specs.Answer.{next_array_class, IsTakenFor};
    ghost use Rattle.tide_model.specs.Applied.{add_property, is_array_full, place_of, put_cell};
    ghost use Rattle.tide_model.specs.Layout.{array_count, IsBlockOf};
    ghost use Rattle.tide_model.specs.Numbers.{put_at};
    ghost use Rattle.tide_model.specs.References.{IsLive, RefsAreLive};
    ghost use Rattle.tide_model.specs.Refused.{has_key, may_add};
    ghost use Rattle.tide_model.specs.Room.{IsFullBlock};
    ghost use Rattle.tide_plain.specs.stored.Contents.{state_of, Leaves};
    ghost use Rattle.tide_plain.specs.stored.Properties.{with_array, with_property, IsOwnArray};

    /// Where the property of a key stands among those of a live cell, if it has one.
    pub fn place(&self, cell: u32, key: u32) -> Option<u32>
        requires { IsLive (state_of self.now) cell }
        ensures known { is_some result ≡ has_key (state_of self.now) cell key }
        ensures place { IfSome result (λ place. place ≡ place_of ((state_of self.now).cells cell).keys key) }
        ensures within { IfSome result (λ place. place < length ((state_of self.now).cells cell).keys) }
    {
        self.shapes.place(self.cells.stored(cell).shape, key)
    }

    /// The shape that a live cell gets with one more key, if there is one.
    fn next_shape(&self, cell: u32, key: u32) -> Option<u32>
        requires { IsLive (state_of self.now) cell }
        ensures known { is_some result ≡ may_add self.now.shapes (state_of self.now) cell key }
        ensures next { IfSome result (λ next. slice_get self.now.shapes next ≡
            Some (((state_of self.now).cells cell).keys ++ key ∷ [])) }
        ensures fewer { IfSome result (λ next. length ((state_of self.now).cells cell).keys < 64) }
    {
        self.shapes.next(self.cells.stored(cell).shape, key)
    }

    /// Whether a live cell may get a property of one more key.
    pub fn may_add(&self, cell: u32, key: u32) -> bool
        requires { IsLive (state_of self.now) cell }
        ensures { result ≡ may_add self.now.shapes (state_of self.now) cell key }
    {
        self.next_shape(cell, key).is_some()
    }

    /// What the property of a live cell at a place is.
    pub fn property(&self, cell: u32, place: u32) -> Val
        requires references { RefsAreLive (state_of self.now) }
        requires live { IsLive (state_of self.now) cell }
        requires place { place < length ((state_of self.now).cells cell).keys }
        ensures { result ≡ ((state_of self.now).cells cell).properties place }
    {
        self.properties(cell)[place as usize]
    }

    /// The property of a live cell at a place gets another value.
    pub fn set_property(&mut self, cell: u32, place: u32, value: Val)
        requires references { RefsAreLive (state_of self.old) }
        requires live { IsLive (state_of self.old) cell }
        requires place { place < length ((state_of self.old).cells cell).keys }
        ensures { Leaves self.old self.new (put_cell (state_of self.old) cell
            (record ((state_of self.old).cells cell) { properties = put_at ((state_of self.old).cells cell).properties place value })) }
    {
        let Some(array) = self.cells.stored(cell).array else {
            unreachable!();
        };
        self.arrays.put(array, place, value);
    }

    /// Whether a live cell has an array with room for one more property.
    fn has_room(&self, cell: u32) -> bool
        requires references { RefsAreLive (state_of self.now) }
        requires live { IsLive (state_of self.now) cell }
        requires fewer { length ((state_of self.now).cells cell).keys < 64 }
        ensures room { not result ≡ is_array_full ((state_of self.now).cells cell) }
        ensures own { result ≡ true → (array : ℕ) × (array < array_count self.now.layout) ×
            IsOwnArray (state_of self.now) cell array }
    {
        let count = self.shapes.count(self.cells.stored(cell).shape);
        count != capacity(count)
    }

    /// Gives a cell a free array with what its old one holds, which is spent.
    fn exchange_array(&mut self, cell: u32, taken: u32)
        requires references { RefsAreLive (state_of self.old) }
        requires live { IsLive (state_of self.old) cell }
        requires within { taken < array_count self.old.layout }
        requires free { (state_of self.old).arrays taken ≡ free }
        ensures leaves { Leaves self.old self.new (with_array (state_of self.old) cell (Some taken)) }
        ensures own { IsOwnArray (state_of self.new) cell taken }
    {
        let mut stored = *self.cells.stored(cell);
        self.arrays.exchange(stored.array, taken);
        stored.array = Some(taken);
        self.cells.store(cell, stored);
    }

    /// Sees that a cell has an array with room for one more property, and answers the array that it took for this, if
    /// it took one, or the class of which none is free.
    fn make_room(&mut self, cell: u32) -> Result<Option<u32>, u8>
        requires references { RefsAreLive (state_of self.old) }
        requires live { IsLive (state_of self.old) cell }
        requires fewer { length ((state_of self.old).cells cell).keys < 64 }
        ensures taken { IfOk result (λ took. IsTakenFor self.old.layout (state_of self.old) cell took) }
        ensures leaves { IfOk result (λ took. Leaves self.old self.new (with_array (state_of self.old) cell took)) }
        ensures own { OnOk result ((array : ℕ) × (array < array_count self.new.layout) ×
            IsOwnArray (state_of self.new) cell array) }
        ensures full { OnErr result (is_array_full ((state_of self.old).cells cell) ≡ true) }
        ensures class { IfErr result (λ class. class ≡ next_array_class (state_of self.old) cell) }
        ensures room { IfErr result (λ class. (block : ℕ) → IsBlockOf self.old.layout class block →
            IsFullBlock self.old.layout (state_of self.old) block) }
        ensures unchanged { OnErr result (self.new ≡ self.old) }
    {
        if self.has_room(cell) {
            return Ok(None);
        }
        let class = array_class_for(self.key_count(cell) + 1);
        match self.free_array_of(class) {
            Some(taken) => {
                self.exchange_array(cell, taken);
                Ok(Some(taken))
            }
            None => Err(class),
        }
    }

    /// Gives a cell another shape, and the property behind those that it has a value.
    fn append(&mut self, cell: u32, shape: u32, value: Val)
        requires own { (array : ℕ) × (array < array_count self.old.layout) × IsOwnArray (state_of self.old) cell array }
        requires shape { shape < length self.old.shapes }
        requires room { length ((state_of self.old).cells cell).keys < 64 }
        ensures { Leaves self.old self.new (with_property (state_of self.old) cell
            (keys_of self.old.shapes shape) value) }
    {
        let mut stored = *self.cells.stored(cell);
        let place = self.shapes.count(stored.shape);
        let Some(array) = stored.array else {
            unreachable!();
        };
        self.arrays.put(array, place, value);
        stored.shape = shape;
        self.cells.store(cell, stored);
    }

    /// Gives a live cell a property of one more key. Answers the array that it took for this, if it took one, or the
    /// class of which none is free.
    pub fn add_property(&mut self, cell: u32, key: u32, value: Val) -> Result<Option<u32>, u8>
        requires references { RefsAreLive (state_of self.old) }
        requires live { IsLive (state_of self.old) cell }
        requires may { may_add self.old.shapes (state_of self.old) cell key ≡ true }
        ensures taken { IfOk result (λ took. IsTakenFor self.old.layout (state_of self.old) cell took) }
        ensures leaves { IfOk result (λ took.
            Leaves self.old self.new (add_property (state_of self.old) cell key value took)) }
        ensures full { OnErr result (is_array_full ((state_of self.old).cells cell) ≡ true) }
        ensures class { IfErr result (λ class. class ≡ next_array_class (state_of self.old) cell) }
        ensures room { IfErr result (λ class. (block : ℕ) → IsBlockOf self.old.layout class block →
            IsFullBlock self.old.layout (state_of self.old) block) }
        ensures unchanged { OnErr result (self.new ≡ self.old) }
    {
        let Some(shape) = self.next_shape(cell, key) else {
            unreachable!();
        };
        let took = self.make_room(cell)?;
        self.append(cell, shape, value);
        Ok(took)
    }
}
