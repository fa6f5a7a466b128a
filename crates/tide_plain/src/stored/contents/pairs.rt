//! Pairs: what a table has under key cells, and their changes.
ghost use Rattle.std.specs.Prelude.{◌≡◌, ◌<◌, ◌&&◌, Some, None, nat_le, not, true, false, slice_set};

use crate::parts::{Pair, place_of, seat, value_of};
use crate::stored::contents::Contents;
use tide_model::Val;

impl Contents {
    ghost use Rattle.tide_model.specs.Applied.{put_cell, put_pair};
    ghost use Rattle.tide_model.specs.References.{IsLive, RefsAreLive};
    ghost use Rattle.tide_model.specs.Refused.{has_pair, pair_count};
    ghost use Rattle.tide_plain.specs.stored.Contents.{state_of, stored_at, Leaves};
    ghost use Rattle.tide_plain.specs.parts.Pairs.{pairs_of, IsDistinctPairs};

    /// What a live table has under a key.
    pub fn pair(&self, table: u32, key: u32) -> Option<Val>
        requires { IsLive (state_of self.now) table }
        ensures { result ≡ ((state_of self.now).cells table).pairs key }
    {
        value_of(self.pairs(table), key)
    }

    /// A place of a live table gets another pair, or none.
    fn set_place(&mut self, table: u32, place: usize, pair: Option<Pair>)
        requires live { IsLive (state_of self.old) table }
        requires place { place < 8 }
        requires distinct { IsDistinctPairs (slice_set (stored_at self.old table).pairs place pair) }
        ensures { Leaves self.old self.new (put_cell (state_of self.old) table
            (record ((state_of self.old).cells table) { pairs = pairs_of (slice_set (stored_at self.old table).pairs place pair) })) }
    {
        let mut stored = *self.cells.stored(table);
        stored.set_place(place, pair);
        self.cells.store(table, stored);
    }

    /// Puts a value under a key in a live table, and tells whether there was room.
    pub fn set_pair(&mut self, table: u32, key: u32, value: Val) -> bool
        requires references { RefsAreLive (state_of self.old) }
        requires live { IsLive (state_of self.old) table }
        ensures room { not result ≡ (not (has_pair (state_of self.old) table key) && nat_le 8
            (pair_count self.old.layout (state_of self.old) table)) }
        ensures leaves { result ≡ true →
            Leaves self.old self.new (put_pair (state_of self.old) table key (Some value)) }
        ensures unchanged { result ≡ false → self.new ≡ self.old }
    {
        match seat(&self.cells.stored(table).pairs, key) {
            Some(place) => {
                self.set_place(table, place, Some(Pair { key, value }));
                true
            }
            None => false,
        }
    }

    /// Takes the pair of a key out of a live table, and tells whether there was one.
    pub fn delete_pair(&mut self, table: u32, key: u32) -> bool
        requires { IsLive (state_of self.old) table }
        ensures there { result ≡ has_pair (state_of self.old) table key }
        ensures leaves { result ≡ true → Leaves self.old self.new (put_pair (state_of self.old) table key None) }
        ensures unchanged { result ≡ false → self.new ≡ self.old }
    {
        match place_of(&self.cells.stored(table).pairs, key) {
            Some(place) => {
                self.set_place(table, place, None);
                true
            }
            None => false,
        }
    }
}
