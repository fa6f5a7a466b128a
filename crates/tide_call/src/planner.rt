//! `Planner`: a mutator that is about to make a call, and what its own words say. It knows no operation.
ghost use Rattle.std.specs.Prelude.{◌≡◌, ◌<◌, ℕ, Option, Some, true, length, slice_index, IfErr, IfOk};
ghost use Rattle.tide_model.specs.Layout.{cell_count};
ghost use Rattle.tide_model.specs.Numbers.{is_among};
ghost use Rattle.tide_model.specs.Refused.{is_table, refusal_at};
ghost use Rattle.tide_model.specs.declared.op.Refusal.{Refusal as TheRefusal};
ghost use Rattle.tide_model.specs.declared.val.Val.TheVariants.{Cell};
ghost use Rattle.tide_shape.specs.ShapeTable.{IsShapeTable};
ghost use Rattle.tide_words.specs.heap.Reading.{slot_word};
ghost use Rattle.tide_call.specs.Callers.{Always, Leaves, MayCallNow};
ghost use Rattle.tide_call.specs.ShapeWord.{IsShapeWord};

use crate::claims::Claims;
use crate::own::{OwnRegisters, OwnWords};
use std::marker::Model;
use tide_model::{Refusal, Val};
use tide_shape::ShapeTable;
use tide_words::{Layout, PAIRS, word_array, word_structure, word_val};

/// A mutator that makes a call, with the cells that it claims, and the layout and the shapes of its store.
#[derive(Drop)]
pub struct Planner<'a, S: ShapeTable> {
    who: u32,
    layout: &'a Layout,
    shapes: &'a S,
    claims: &'a Claims,
}

impl<'a, S: ShapeTable> Model for Planner<'a, S> {
    ghost use Rattle.tide_call.specs.Callers.{Planner};

    ghost Value = { Planner };

    ghost view = { λ c. record {
      layout = c.layout.now;
      shapes = S.lists c.shapes.now;
      who = c.who;
      claims = c.claims.now;
    } };
}

impl<'a, S: ShapeTable> Planner<'a, S> {
    /// The mutator with this number.
    pub fn new(who: u32, layout: &'a Layout, shapes: &'a S, claims: &'a Claims) -> Self
        ensures planner { result ≡
            record { layout = layout.now; shapes = S.lists shapes.now; who = who; claims = claims.now } }
        ensures table { IsShapeTable result.shapes }
    {
        Planner {
            who,
            layout,
            shapes,
            claims,
        }
    }

    /// The caller's layout.
    pub(crate) fn layout(&self) -> &'a Layout
        ensures { result.now ≡ self.now.layout }
    {
        self.layout
    }

    /// The shapes of the caller's store.
    pub(crate) fn shapes(&self) -> &'a S
        ensures lists { S.lists result.now ≡ self.now.shapes }
        ensures table { IsShapeTable self.now.shapes }
    {
        self.shapes
    }

    /// The caller's claims.
    pub(crate) fn claims(&self) -> &'a Claims
        ensures { result.now ≡ self.now.claims }
    {
        self.claims
    }

    /// The value that a register of the caller holds.
    #[inline(always)]
    pub(crate) fn value_in<C, O: OwnRegisters<C>>(
        &self,
        own: &mut O,
        context: &C,
        register: u8,
    ) -> Val
        requires of_layout { register < self.now.layout.registers }
        requires known { MayCallNow (O.owns own.old context.now) self.now }
        ensures value { Always (O.owns own.new context.now) self.now (λ heap state.
            state.registers self.now.who register ≡ result) }
        ensures owns { Leaves (O.owns own.old) (O.owns own.new) context.now self.now (O.rest own.old) (O.rest own.new) }
    {
        word_val(own.register(context, self.layout, self.who, register)).unwrap_or(Val::Empty)
    }

    /// The cell that a register of the caller holds, or that it holds none.
    #[inline(always)]
    pub(crate) fn cell_in<C, O: OwnRegisters<C>>(
        &self,
        own: &mut O,
        context: &C,
        register: u8,
    ) -> Result<u32, Refusal>
        requires of_layout { register < self.now.layout.registers }
        requires known { MayCallNow (O.owns own.old context.now) self.now }
        ensures within { IfOk result (λ cell. cell < cell_count self.now.layout) }
        ensures cell { IfOk result (λ cell. Always (O.owns own.new context.now) self.now (λ heap state.
            state.registers self.now.who register ≡ Cell cell)) }
        ensures refused { IfErr result (λ refusal. Always (O.owns own.new context.now) self.now (λ heap state.
            (further : ℕ → Option TheRefusal) →
            refusal_at (state.registers self.now.who register) register further ≡ Some refusal)) }
        ensures owns { Leaves (O.owns own.old) (O.owns own.new) context.now self.now (O.rest own.old) (O.rest own.new) }
    {
        let cells = self.layout.cells();
        match self.value_in(own, context, register) {
            Val::Cell(cell) if cell < cells => Ok(cell),
            _ => Err(Refusal::NotCell { reg: register }),
        }
    }

    /// The shape of a cell that the caller claims.
    pub(crate) fn shape_of<C, O: OwnWords<C>>(&self, own: &mut O, context: &C, cell: u32) -> u32
        requires of_layout { cell < cell_count self.now.layout }
        requires claimed { is_among self.now.claims cell ≡ true }
        requires known { MayCallNow (O.owns own.old context.now) self.now }
        ensures shape { Always (O.owns own.new context.now) self.now (λ heap state.
            IsShapeWord self.now.shapes (state.cells cell).keys result) }
        ensures within { result < length self.now.shapes }
        ensures owns { Leaves (O.owns own.old) (O.owns own.new) context.now self.now (O.rest own.old) (O.rest own.new) }
    {
        match word_structure(own.structure(context, self.layout, self.who, cell)) {
            Some(structure) => structure.shape,
            None => 0,
        }
    }

    /// The array of a cell that the caller claims, if it has one.
    pub(crate) fn array_of<C, O: OwnWords<C>>(
        &self,
        own: &mut O,
        context: &C,
        cell: u32,
    ) -> Option<u32>
        requires of_layout { cell < cell_count self.now.layout }
        requires claimed { is_among self.now.claims cell ≡ true }
        requires known { MayCallNow (O.owns own.old context.now) self.now }
        ensures array { Always (O.owns own.new context.now) self.now (λ heap state.
            (state.cells cell).array ≡ result) }
        ensures owns { Leaves (O.owns own.old) (O.owns own.new) context.now self.now (O.rest own.old) (O.rest own.new) }
    {
        let arrays = self.layout.arrays();
        let array = word_array(own.array(context, self.layout, self.who, cell))?;
        (array < arrays).then_some(array)
    }

    /// The words of a table that the caller claims.
    pub(crate) fn pairs_of<C, O: OwnWords<C>>(
        &self,
        own: &mut O,
        context: &C,
        table: u32,
    ) -> [u64; 8]
        requires of_layout { table < cell_count self.now.layout }
        requires table { is_table self.now.layout table ≡ true }
        requires claimed { is_among self.now.claims table ≡ true }
        requires known { MayCallNow (O.owns own.old context.now) self.now }
        ensures words { Always (O.owns own.new context.now) self.now (λ heap state. (place : ℕ) → place < 8 →
            slice_index result place ≡ slot_word self.now.layout heap table place) }
        ensures owns { Leaves (O.owns own.old) (O.owns own.new) context.now self.now (O.rest own.old) (O.rest own.new) }
    {
        // The pairs of a table lie side by side.
        let first = self.layout.slot(table, 0);
        let end = self.layout.words();
        prove!(first < end);
        let mut words = [0; 8];
        for place in 0..PAIRS {
            let past = usize::from(place);
            let at = first + past;
            words[past] = own.pair(context, self.layout, self.who, table, place, at);
        }
        words
    }
}
