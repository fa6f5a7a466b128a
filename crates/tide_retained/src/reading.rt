//! Reading what the live cells hold from the words: their keys, links, groups and pairs. It searches nothing.
ghost use Rattle.std.specs.Prelude.{◌≡◌, ◌⊎◌, ◌↔◌, ◌<◌, ◌≤◌, ◌^◌, ℕ, Contains, Option, Some, length, slice_get, slice_index, IfOk, IfSome, OnOk, true};
ghost use Rattle.tide_words.specs.tide_layout.Region.{index_of_register, size_of, word_count};
ghost use Rattle.tide_words.specs.tide_layout.Slots.{HasElement, HasSlot};
ghost use Rattle.tide_words.specs.tide_layout.declared.region.Region.TheVariants.{Group, Registers, Structure};
ghost use Rattle.tide_model.specs.Layout.{array_count, cell_count, class_of, slots_of};
ghost use Rattle.tide_model.specs.Refused.{is_table, ShapeLists};
ghost use Rattle.tide_model.specs.State.{CellState, State, live};
ghost use Rattle.tide_model.specs.declared.val.Val.{Val as Value};
ghost use Rattle.tide_shape.specs.ShapeTable.{keys_of};
ghost use Rattle.tide_words.specs.heap.Heap.{heap_of};
ghost use Rattle.tide_words.specs.heap.Live.{is_live_at};
ghost use Rattle.tide_words.specs.heap.Reading.{element_word, slot_word, CellReads, IsTableOf, IsValueOf, ReadsAs, TakenReads};
ghost use Rattle.tide_retained.specs.Contents.{pairs_of, properties_in, AreKeysOf, HasKeysOf};
ghost use Rattle.tide_retained.specs.Searching.{HasKeysBelow};
ghost use Rattle.tide_retained.specs.declared.contents.Keyed.{Keyed as KeyedValue};
ghost use Rattle.tide_retained.specs.Holding.{properties_of, AreCellsRead, AreKeysBelow, ArePairs, AreRising, AreSlotsRead, HasKey, HasShapes, HoldsSame, IsHeldOf, IsSnapshotOf, LiveReads, NamesShape, PutsPair};

use crate::contents::{Contents, Held, Keyed};
use crate::roots::read_roots;
use crate::values::value_at;
use std::alloc::Global;
use tide_model::{Memory, Val};
use tide_shape::ShapeTable;
use tide_words::{
    Layout, PAIRS, Region, TABLE, Words, array_capacity, array_of, class_of, class_of_array,
    is_live, slots, word_pair, word_structure, word_val,
};

/// The value in a slot of a cell.
fn slot_at<W: Words>(words: &mut W, layout: &Layout, cell: u32, slot: u8) -> Val
    requires all_words { length (W.words words.old) ≡ word_count layout.now }
    requires slot { HasSlot layout.now cell slot }
    ensures value { (value : Value) → IsValueOf value (slot_word layout.now (heap_of layout.now (W.words words.old))
        cell slot) → result ≡ value }
    ensures same { W.words words.new ≡ W.words words.old }
    ensures same_rest { W.rest words.new ≡ W.rest words.old }
{
    value_at(words, layout.slot(cell, slot))
}

/// The values of a cell's slots.
fn read_slots<W: Words>(
    alloc: Global,
    words: &mut W,
    layout: &Layout,
    cell: u32,
) -> Result<Vec<Val>, Memory>
    requires all_words { length (W.words words.old) ≡ word_count layout.now }
    requires of_layout { cell < cell_count layout.now }
    ensures slots { IfOk result (λ slots. AreSlotsRead layout.now (heap_of layout.now (W.words words.old)) cell
        (slots_of (class_of layout.now cell)) slots.items) }
    ensures same { W.words words.new ≡ W.words words.old }
    ensures same_rest { W.rest words.new ≡ W.rest words.old }
{
    let mut values = Vec::new(alloc);
    for slot in 0..slots(class_of(layout, cell)) {
        let value = slot_at(words, layout, cell, slot);
        values.push(value)?;
    }
    Ok(values)
}

/// The shape that has the keys of a live cell, as its words say.
fn read_shape<W: Words, S: ShapeTable>(words: &mut W, layout: &Layout, shapes: &S, cell: u32) -> u32
    requires all_words { length (W.words words.old) ≡ word_count layout.now }
    requires of_layout { cell < cell_count layout.now }
    requires names { NamesShape (S.lists shapes.now) (heap_of layout.now (W.words words.old) Structure cell) }
    ensures of_table { result < length (S.lists shapes.now) }
    ensures shape { (held : CellState) → LiveReads layout.now (S.lists shapes.now)
        (heap_of layout.now (W.words words.old)) cell held → slice_get (S.lists shapes.now) result ≡ Some held.keys }
    ensures same { W.words words.new ≡ W.words words.old }
    ensures same_rest { W.rest words.new ≡ W.rest words.old }
{
    match word_structure(words.load(layout.place(Region::Structure, cell))) {
        Some(structure) => structure.shape,
        None => 0,
    }
}

/// The value at a place of an array, and `Empty` where there is no such place.
fn element_at<W: Words>(words: &mut W, layout: &Layout, array: Option<u32>, place: u32) -> Val
    requires all_words { length (W.words words.old) ≡ word_count layout.now }
    requires of_layout { IfSome array (λ array. array < array_count layout.now) }
    ensures value { (there : ℕ) (value : Value) → array ≡ Some there → HasElement layout.now there place →
        IsValueOf value (element_word layout.now (heap_of layout.now (W.words words.old)) there place) →
        result ≡ value }
    ensures same { W.words words.new ≡ W.words words.old }
    ensures same_rest { W.rest words.new ≡ W.rest words.old }
{
    let Some(array) = array else {
        return Val::Empty;
    };
    let capacity = u32::from(array_capacity(class_of_array(layout, array)));
    if place >= capacity {
        return Val::Empty;
    }
    value_at(words, layout.element(array, place as u8))
}

/// The property at a place of a cell's keys.
fn read_property<W: Words, S: ShapeTable>(
    words: &mut W,
    layout: &Layout,
    shapes: &S,
    shape: u32,
    array: Option<u32>,
    place: u32,
) -> Keyed
    requires all_words { length (W.words words.old) ≡ word_count layout.now }
    requires of_table { shape < length (S.lists shapes.now) }
    requires of_shape { place < length (keys_of (S.lists shapes.now) shape) }
    requires of_layout { IfSome array (λ array. array < array_count layout.now) }
    ensures key { slice_get (keys_of (S.lists shapes.now) shape) place ≡ Some result.key }
    ensures value { (there : ℕ) (value : Value) → array ≡ Some there → HasElement layout.now there place →
        IsValueOf value (element_word layout.now (heap_of layout.now (W.words words.old)) there place) →
        result.value ≡ value }
    ensures same { W.words words.new ≡ W.words words.old }
    ensures same_rest { W.rest words.new ≡ W.rest words.old }
{
    let key = shapes.key_at(shape, place);
    let value = element_at(words, layout, array, place);
    Keyed { key, value }
}

/// The properties of a live cell, in the order of its keys.
fn read_properties<W: Words, S: ShapeTable>(
    alloc: Global,
    words: &mut W,
    layout: &Layout,
    shapes: &S,
    cell: u32,
) -> Result<Vec<Keyed>, Memory>
    requires all_words { length (W.words words.old) ≡ word_count layout.now }
    requires of_layout { cell < cell_count layout.now }
    requires names { NamesShape (S.lists shapes.now) (heap_of layout.now (W.words words.old) Structure cell) }
    ensures properties { IfOk result (λ list. (held : CellState) → LiveReads layout.now (S.lists shapes.now)
        (heap_of layout.now (W.words words.old)) cell held → list.items ≡ properties_of held) }
    ensures keys { IfOk result (λ list. AreKeysOf (S.lists shapes.now) list.items) }
    ensures same { W.words words.new ≡ W.words words.old }
    ensures same_rest { W.rest words.new ≡ W.rest words.old }
{
    let shape = read_shape(words, layout, shapes, cell);
    let array = array_of(words, layout, cell);
    let mut list = Vec::new(alloc);
    for place in 0..shapes.count(shape) {
        let property = read_property(words, layout, shapes, shape, array, place);
        list.push(property)?;
    }
    Ok(list)
}

/// Puts a pair among others whose keys rise, if none of them has its key.
fn insert_pair(pairs: &mut Vec<Keyed>, pair: Keyed) -> Result<(), Memory>
    ensures rising { OnOk result (AreRising pairs.old.items → ¬ HasKey pairs.old.items pair.key →
        AreRising pairs.new.items) }
    ensures each { OnOk result ((other : KeyedValue) →
        Contains pairs.new.items other ↔ (Contains pairs.old.items other ⊎ (other ≡ pair))) }
{
    let key = pair.key;
    let at = pairs.as_slice().partition_point(|other| other.key < key);
    pairs.insert(at, pair)?;
    Ok(())
}

/// Puts the pair that a word is of among others, if it is one's.
fn push_pair(pairs: &mut Vec<Keyed>, word: u64) -> Result<(), Memory>
    ensures { OnOk result (PutsPair word pairs.old.items pairs.new.items) }
{
    match word_pair(word) {
        Some((key, value)) => insert_pair(pairs, Keyed { key, value }),
        None => Ok(()),
    }
}

/// The pairs of a table, with keys rising.
fn read_pairs<W: Words>(
    alloc: Global,
    words: &mut W,
    layout: &Layout,
    table: u32,
) -> Result<Vec<Keyed>, Memory>
    requires all_words { length (W.words words.old) ≡ word_count layout.now }
    requires of_layout { table < cell_count layout.now }
    requires table { is_table layout.now table ≡ true }
    ensures pairs { IfOk result (λ list. (pairs : ℕ → Option Value) →
        IsTableOf layout.now (heap_of layout.now (W.words words.old)) table pairs → ArePairs pairs list.items) }
    ensures few { IfOk result (λ list. AreKeysBelow 83886080 list.items) }
    ensures same { W.words words.new ≡ W.words words.old }
    ensures same_rest { W.rest words.new ≡ W.rest words.old }
{
    let mut pairs = Vec::new(alloc);
    for place in 0..PAIRS {
        let word = words.load(layout.slot(table, place));
        push_pair(&mut pairs, word)?;
    }
    Ok(pairs)
}

/// The pairs of a cell, of which only a table has any.
fn read_pairs_of<W: Words>(
    alloc: Global,
    words: &mut W,
    layout: &Layout,
    cell: u32,
) -> Result<Vec<Keyed>, Memory>
    requires all_words { length (W.words words.old) ≡ word_count layout.now }
    requires of_layout { cell < cell_count layout.now }
    ensures pairs { IfOk result (λ list. (shapes : ShapeLists) (held : CellState) →
        TakenReads layout.now shapes (heap_of layout.now (W.words words.old)) cell held →
        ArePairs held.pairs list.items) }
    ensures few { IfOk result (λ list. AreKeysBelow 83886080 list.items) }
    ensures same { W.words words.new ≡ W.words words.old }
    ensures same_rest { W.rest words.new ≡ W.rest words.old }
{
    if class_of(layout, cell) != TABLE {
        return Ok(Vec::new(alloc));
    }
    read_pairs(alloc, words, layout, cell)
}

/// The group of a cell, and 0 where its word is no group's.
fn read_group<W: Words>(words: &mut W, layout: &Layout, cell: u32) -> u32
    requires all_words { length (W.words words.old) ≡ word_count layout.now }
    requires of_layout { cell < cell_count layout.now }
    ensures group { (group : ℕ) → group < 2 ^ 32 →
        heap_of layout.now (W.words words.old) Group cell ≡ group → result ≡ group }
    ensures same { W.words words.new ≡ W.words words.old }
    ensures same_rest { W.rest words.new ≡ W.rest words.old }
{
    let group = words.load(layout.place(Region::Group, cell));
    u32::try_from(group).unwrap_or(0)
}

/// What a live cell holds.
fn read_live<W: Words, S: ShapeTable>(
    alloc: Global,
    words: &mut W,
    layout: &Layout,
    shapes: &S,
    cell: u32,
) -> Result<Held, Memory>
    requires all_words { length (W.words words.old) ≡ word_count layout.now }
    requires of_layout { cell < cell_count layout.now }
    requires names { NamesShape (S.lists shapes.now) (heap_of layout.now (W.words words.old) Structure cell) }
    ensures held { IfOk result (λ held. (state : CellState) → CellReads layout.now (S.lists shapes.now)
        (heap_of layout.now (W.words words.old)) cell state → state.status ≡ live →
        HoldsSame layout.now cell state held) }
    ensures few { IfOk result (λ held. AreKeysBelow 83886080 held.pairs.items) }
    ensures keys { IfOk result (λ held. AreKeysOf (S.lists shapes.now) held.properties.items) }
    ensures same { W.words words.new ≡ W.words words.old }
    ensures same_rest { W.rest words.new ≡ W.rest words.old }
{
    let slots = read_slots(alloc, words, layout, cell)?;
    let properties = read_properties(alloc, words, layout, shapes, cell)?;
    let pairs = read_pairs_of(alloc, words, layout, cell)?;
    let group = read_group(words, layout, cell);
    Ok(Held {
        class: class_of(layout, cell),
        slots,
        properties,
        pairs,
        group,
    })
}

/// What a cell holds, if it is live.
pub(crate) fn read_cell<W: Words, S: ShapeTable>(
    alloc: Global,
    words: &mut W,
    layout: &Layout,
    shapes: &S,
    cell: u32,
) -> Result<Option<Held>, Memory>
    requires all_words { length (W.words words.old) ≡ word_count layout.now }
    requires of_layout { cell < cell_count layout.now }
    requires names { is_live_at (heap_of layout.now (W.words words.old)) cell ≡ true →
        NamesShape (S.lists shapes.now) (heap_of layout.now (W.words words.old) Structure cell) }
    ensures held { IfOk result (λ found. (held : CellState) → CellReads layout.now (S.lists shapes.now)
        (heap_of layout.now (W.words words.old)) cell held → IsHeldOf layout.now cell held found) }
    ensures few { IfOk result (λ found. AreKeysBelow 83886080 (pairs_of found)) }
    ensures keys { IfOk result (λ found. AreKeysOf (S.lists shapes.now) (properties_in found)) }
    ensures same { W.words words.new ≡ W.words words.old }
    ensures same_rest { W.rest words.new ≡ W.rest words.old }
{
    if !is_live(words, layout, cell) {
        return Ok(None);
    }
    let held = read_live(alloc, words, layout, shapes, cell)?;
    Ok(Some(held))
}

/// What each cell holds.
fn read_cells<W: Words, S: ShapeTable>(
    alloc: Global,
    words: &mut W,
    layout: &Layout,
    shapes: &S,
) -> Result<Vec<Option<Held>>, Memory>
    requires all_words { length (W.words words.old) ≡ word_count layout.now }
    requires names { HasShapes layout.now (S.lists shapes.now) (heap_of layout.now (W.words words.old)) }
    ensures cells { IfOk result (λ cells. AreCellsRead layout.now (S.lists shapes.now)
        (heap_of layout.now (W.words words.old)) (cell_count layout.now) cells.items) }
    ensures few { IfOk result (λ cells. length cells.items ≤ 83886080) }
    ensures same { W.words words.new ≡ W.words words.old }
    ensures same_rest { W.rest words.new ≡ W.rest words.old }
{
    let mut cells = Vec::new(alloc);
    for cell in 0..layout.cells() {
        let held = read_cell(alloc, words, layout, shapes, cell)?;
        cells.push(held)?;
    }
    Ok(cells)
}

/// What the cells and the roots hold.
pub(crate) fn read_contents<W: Words, S: ShapeTable>(
    alloc: Global,
    words: &mut W,
    layout: &Layout,
    shapes: &S,
) -> Result<Contents, Memory>
    requires all_words { length (W.words words.old) ≡ word_count layout.now }
    requires names { HasShapes layout.now (S.lists shapes.now) (heap_of layout.now (W.words words.old)) }
    ensures contents { IfOk result (λ contents. (state : State) → ReadsAs layout.now (S.lists shapes.now)
        (heap_of layout.now (W.words words.old)) state → IsSnapshotOf layout.now state contents) }
    ensures few { IfOk result (λ contents. length contents.cells.items ≤ 83886080) }
    ensures pairs { IfOk result (λ contents. HasKeysBelow 83886080 contents) }
    ensures keys { IfOk result (λ contents. HasKeysOf (S.lists shapes.now) contents) }
    ensures same { W.words words.new ≡ W.words words.old }
    ensures same_rest { W.rest words.new ≡ W.rest words.old }
{
    let cells = read_cells(alloc, words, layout, shapes)?;
    let roots = read_roots(alloc, words, layout)?;
    Ok(Contents { cells, roots })
}
