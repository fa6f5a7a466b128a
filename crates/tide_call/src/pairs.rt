//! What operations on pairs are to do. It reads no word but the caller's own.
ghost use Rattle.std.specs.Prelude.{◌≡◌, ◌<◌, ◌∷◌, [], ℕ, None, Some, Option, true, IfErr, IfNone, IfOk, IfSome};
ghost use Rattle.tide_model.specs.Layout.{cell_count};
ghost use Rattle.tide_model.specs.Numbers.{is_among};
ghost use Rattle.tide_model.specs.Refused.{first_of, is_table, pair_refusal};
ghost use Rattle.tide_model.specs.declared.op.Op.TheVariants.{PairDel, PairGet, PairSet};
ghost use Rattle.tide_model.specs.declared.op.Refusal.{Refusal as TheRefusal};
ghost use Rattle.tide_model.specs.declared.val.Val.TheVariants.{Cell};
ghost use Rattle.tide_call.specs.Callers.{Always, Leaves, MayCallNow};
ghost use Rattle.tide_call.specs.Pairs.{HasNoZero, IsFirstZero, IsPlaceAmong, LacksKey, PairStandsAt};
ghost use Rattle.tide_call.specs.Actions.{IsAction};

use crate::action::Action;
use crate::own::OwnWords;
use crate::planner::Planner;
use tide_model::{Refusal, Val};
use tide_shape::ShapeTable;
use tide_words::{PAIRS, TABLE, class_of, word_pair};

/// The value of a key's pair, and the place of its word among those of a table.
#[derive(Clone, Copy)]
struct Pair {
    place: u8,
    value: Val,
}

/// The pair of a key among the words of a table, if there is one.
fn pair_of(words: &[u64; 8], key: u32) -> Option<Pair>
    ensures stands { IfSome result (λ pair. PairStandsAt words.now key pair.value pair.place) }
    ensures none { IfNone result (LacksKey words.now key) }
{
    for place in 0..PAIRS {
        match word_pair(words[usize::from(place)]) {
            Some((other, value)) if other == key => return Some(Pair { place, value }),
            _ => {}
        }
    }
    None
}

/// The first place of a table that has no pair, if there is one.
fn empty_place(words: &[u64; 8]) -> Option<u8>
    ensures first { IfSome result (IsFirstZero words.now) }
    ensures full { IfNone result (HasNoZero words.now) }
{
    for place in 0..PAIRS {
        if words[usize::from(place)] == 0 {
            return Some(place);
        }
    }
    None
}

/// The place for a pair of a key among the words of a table, or `None` where each place has another key's.
fn place_for(words: &[u64; 8], key: u32) -> Option<u8>
    ensures place { IfSome result (IsPlaceAmong words.now key) }
    ensures absent { IfNone result (LacksKey words.now key) }
    ensures full { IfNone result (HasNoZero words.now) }
{
    match pair_of(words, key) {
        Some(pair) => Some(pair.place),
        None => empty_place(words),
    }
}

/// A table and a key cell, which two registers hold.
#[derive(Clone, Copy)]
struct PairCells {
    table: u32,
    key: u32,
}

impl<'a, S: ShapeTable> Planner<'a, S> {
    /// The table, which the caller claims, and the key cell that two registers hold, or why an operation is refused.
    fn pair_cells<C, O: OwnWords<C>>(
        &self,
        own: &mut O,
        context: &C,
        src: u8,
        key: u8,
    ) -> Result<PairCells, Refusal>
        requires table_register { src < self.now.layout.registers }
        requires key_register { key < self.now.layout.registers }
        requires known { MayCallNow (O.owns own.old context.now) self.now }
        ensures refused { IfErr result (λ refusal. Always (O.owns own.new context.now) self.now (λ heap state.
            (further : ℕ → ℕ → Option TheRefusal) →
            pair_refusal self.now.layout state self.now.who src key further ≡ Some refusal)) }
        ensures granted { IfOk result (λ cells. Always (O.owns own.new context.now) self.now (λ heap state.
            (further : ℕ → ℕ → Option TheRefusal) →
            pair_refusal self.now.layout state self.now.who src key further ≡
            first_of (further cells.table cells.key ∷ []))) }
        ensures table { IfOk result (λ cells. Always (O.owns own.new context.now) self.now (λ heap state.
            state.registers self.now.who src ≡ Cell cells.table)) }
        ensures key { IfOk result (λ cells. Always (O.owns own.new context.now) self.now (λ heap state.
            state.registers self.now.who key ≡ Cell cells.key)) }
        ensures within { IfOk result (λ cells. cells.table < cell_count self.now.layout) }
        ensures is_table { IfOk result (λ cells. is_table self.now.layout cells.table ≡ true) }
        ensures claimed { IfOk result (λ cells. is_among self.now.claims cells.table ≡ true) }
        ensures owns { Leaves (O.owns own.old) (O.owns own.new) context.now self.now (O.rest own.old) (O.rest own.new) }
    {
        let table = self.cell_in(own, context, src)?;
        let key = self.cell_in(own, context, key)?;
        if class_of(self.layout(), table) != TABLE {
            return Err(Refusal::NotTable);
        }
        if !self.claims().contains(table) {
            return Err(Refusal::NotHeld);
        }
        Ok(PairCells { table, key })
    }

    /// What a `PairSet` is to do.
    #[inline(always)]
    pub(crate) fn plan_pair_set<C, O: OwnWords<C>>(
        &self,
        own: &mut O,
        context: &C,
        src: u8,
        key: u8,
        val: u8,
    ) -> Action
        requires table_register { src < self.now.layout.registers }
        requires key_register { key < self.now.layout.registers }
        requires val_of_layout { val < self.now.layout.registers }
        requires known { MayCallNow (O.owns own.old context.now) self.now }
        ensures action { Always (O.owns own.new context.now) self.now (λ heap state.
            IsAction self.now heap state (PairSet src key val) result) }
        ensures owns { Leaves (O.owns own.old) (O.owns own.new) context.now self.now (O.rest own.old) (O.rest own.new) }
    {
        let cells = match self.pair_cells(own, context, src, key) {
            Ok(cells) => cells,
            Err(refusal) => return Action::Refuse { refusal },
        };
        let words = self.pairs_of(own, context, cells.table);
        let Some(place) = place_for(&words, cells.key) else {
            return Action::Refuse {
                refusal: Refusal::PairsFull,
            };
        };
        Action::StorePair {
            table: cells.table,
            place,
            key: cells.key,
            value: self.value_in(own, context, val),
        }
    }

    /// What a `PairGet` is to do.
    #[inline(always)]
    pub(crate) fn plan_pair_get<C, O: OwnWords<C>>(
        &self,
        own: &mut O,
        context: &C,
        dst: u8,
        src: u8,
        key: u8,
    ) -> Action
        requires table_register { src < self.now.layout.registers }
        requires key_register { key < self.now.layout.registers }
        requires known { MayCallNow (O.owns own.old context.now) self.now }
        ensures action { Always (O.owns own.new context.now) self.now (λ heap state.
            IsAction self.now heap state (PairGet dst src key) result) }
        ensures owns { Leaves (O.owns own.old) (O.owns own.new) context.now self.now (O.rest own.old) (O.rest own.new) }
    {
        let cells = match self.pair_cells(own, context, src, key) {
            Ok(cells) => cells,
            Err(refusal) => return Action::Refuse { refusal },
        };
        let words = self.pairs_of(own, context, cells.table);
        match pair_of(&words, cells.key) {
            Some(pair) => Action::Show {
                dst,
                table: cells.table,
                place: pair.place,
                value: pair.value,
            },
            None => Action::Refuse {
                refusal: Refusal::Absent,
            },
        }
    }

    /// What a `PairDel` is to do.
    pub(crate) fn plan_pair_delete<C, O: OwnWords<C>>(
        &self,
        own: &mut O,
        context: &C,
        src: u8,
        key: u8,
    ) -> Action
        requires table_register { src < self.now.layout.registers }
        requires key_register { key < self.now.layout.registers }
        requires known { MayCallNow (O.owns own.old context.now) self.now }
        ensures action { Always (O.owns own.new context.now) self.now (λ heap state.
            IsAction self.now heap state (PairDel src key) result) }
        ensures owns { Leaves (O.owns own.old) (O.owns own.new) context.now self.now (O.rest own.old) (O.rest own.new) }
    {
        let cells = match self.pair_cells(own, context, src, key) {
            Ok(cells) => cells,
            Err(refusal) => return Action::Refuse { refusal },
        };
        let words = self.pairs_of(own, context, cells.table);
        match pair_of(&words, cells.key) {
            Some(pair) => Action::ClearPair {
                table: cells.table,
                place: pair.place,
            },
            None => Action::Refuse {
                refusal: Refusal::Absent,
            },
        }
    }
}
