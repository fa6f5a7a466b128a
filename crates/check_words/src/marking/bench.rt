//! A heap on the bench, over which single constraints run.
//!
//! The lines of a row: `layout ..`, the facts of `Heap::say`, and `listed CELL`, which gives the one cell that the list
//! holds before a run. Then
//!
//! - `run CONSTRAINT` is answered with how many cells it marked, and with the list afterwards: the given cell first.
//!   Each list but the first has the room for notes of the one before, with what was left there; after `no room` none
//!   has any;
//! - `volatility CONSTRAINT`, `clear weak` and `clear pairs` do what they say;
//! - `mark CELL` and `mark named WORD` are answered with whether the cell was marked, and the list;
//! - `marked` is answered with the cells that are, `is_live CELL` with true or false, `length` with the number of
//!   words, and `REGION NUMBER`, `slot CELL.SLOT` and `pair TABLE.PLACE` with what is there;
//! - `label LABEL beside CELL` is answered with the label that is beside the words of an empty heap after a call looked
//!   at the cell in them.
ghost use Rattle.std.specs.Prelude.{◌≡◌, ◌+◌, true, length, IfOk};
ghost use Rattle.tide_model.specs.Layout.{cell_count};
ghost use Rattle.tide_words.specs.marking.Colours.{is_marking};
ghost use Rattle.tide_words.specs.marking.Greyed.{HasRoom};
ghost use Rattle.tide_words.specs.heap.Heap.{heap_of, Heap as HeapWords};

use crate::marking::heaps::{answered, answered_numbers, nothing_if, tell};
use check_heap::{
    Answers, Heap, joined, label_text, number, number_between, number_text, numbers_text, text,
    word_of,
};
use std::alloc::{AllocError, Global};
use tide_ephemeron::{Ephemerons, clear_pairs};
use tide_groups::Groups;
use tide_layout::{Layout, Region};
use tide_roots::{Registers, Strong, clear_weak};
use tide_words::{
    Constraint, GreyList, Volatility, Words, is_live, is_marked, mark, mark_named, word_phase,
};

/// The room for notes that the next list has: what the one before it left, or its own, or none.
#[derive(Default, Drop)]
struct Room {
    left: Option<Vec<u32>>,
    is_wanting: bool,
}

/// A heap, once its layout is given, the cell that is listed, and the room for notes that the next list has.
#[derive(Default, Drop)]
pub struct Bench {
    heap: Option<Heap>,
    listed: u32,
    room: Room,
}

/// A list that holds this cell alone, with room for all others of a layout.
pub fn list_of(alloc: Global, layout: &Layout, listed: u32) -> Result<GreyList, AllocError>
    ensures one { IfOk result (λ list. length list.cells ≡ 1) }
    ensures cap { IfOk result (λ list. list.cap ≡ cell_count layout.now + 1) }
    ensures room { IfOk result (λ list. (heap : HeapWords) → HasRoom layout.now heap list) }
{
    match GreyList::new(alloc, layout.cells() + 1) {
        Ok(mut list) => {
            list.push(listed);
            Ok(list)
        }
        Err(_) => Err(AllocError),
    }
}

/// The text of how many cells were marked, and of the list then, the first pushed first.
fn marked_text(
    alloc: Global,
    count: u32,
    list: &mut GreyList,
) -> Result<Option<String>, AllocError> {
    let mut cells = Vec::new(alloc);
    for _cell in 0..list.len() {
        if let Some(cell) = list.pop() {
            cells.push(cell)?;
        }
    }
    cells.reverse();
    let cells = numbers_text(alloc, cells.as_slice())?;
    let count = number_between(alloc, "", u64::from(count), ": ")?;
    answered(joined(alloc, &[count.as_str(), cells.as_str()]))
}

/// Whether a cycle marks in a heap.
pub fn cycle_marks(heap: &mut Heap) -> bool
    ensures layout { heap.new.layout ≡ heap.old.layout }
    ensures words { heap.new.words ≡ heap.old.words }
    ensures marking { result ≡ true → is_marking (heap_of heap.old.layout heap.old.words) ≡ true }
{
    word_phase(heap.words.load(heap.layout.place(Region::Phase, 0))).1
}

/// Runs a constraint once beside a list that holds one cell, and that has this room for notes.
fn run<C: Constraint>(
    alloc: Global,
    heap: &mut Heap,
    listed: u32,
    room: &mut Room,
    constraint: &C,
) -> Result<Option<String>, AllocError> {
    if !cycle_marks(heap) {
        return Ok(None);
    }
    let mut list = list_of(alloc, &heap.layout, listed)?;
    if room.is_wanting {
        list.take_room();
    } else if let Some(left) = room.left.take() {
        list.give_room(left);
    }
    let count = constraint.run(&mut heap.words, &heap.layout, &mut list);
    room.left = list.take_room();
    marked_text(alloc, count, &mut list)
}

/// Marks a cell, or the one that a word names, beside a list that holds one cell.
fn mark_one(
    alloc: Global,
    heap: &mut Heap,
    listed: u32,
    cell: Option<u32>,
    word: u64,
) -> Result<Option<String>, AllocError> {
    if !cycle_marks(heap) {
        return Ok(None);
    }
    let mut list = list_of(alloc, &heap.layout, listed)?;
    let is_new = match cell {
        Some(cell) => mark(&mut heap.words, &heap.layout, cell, &mut list),
        None => mark_named(&mut heap.words, &heap.layout, word, &mut list),
    };
    marked_text(alloc, u32::from(is_new), &mut list)
}

/// Whether a cell is one of the layout, and live.
fn live_text(alloc: Global, heap: &mut Heap, cell: Option<u32>) -> Result<String, AllocError> {
    match cell {
        Some(cell) if cell < heap.layout.cells() && is_live(&mut heap.words, &heap.layout, cell) =>
            { text(alloc, "true") }
        _ => text(alloc, "false"),
    }
}

/// The marked cells, in rising order.
fn marked_cells(alloc: Global, heap: &mut Heap) -> Result<Vec<u32>, AllocError> {
    let mut cells = Vec::new(alloc);
    for cell in 0..heap.layout.cells() {
        if cell < heap.layout.cells() && is_marked(&mut heap.words, &heap.layout, cell) {
            cells.push(cell)?;
        }
    }
    Ok(cells)
}

/// Runs the constraint of a name.
fn run_named(
    alloc: Global,
    heap: &mut Heap,
    listed: u32,
    room: &mut Room,
    name: &str,
) -> Result<Option<String>, AllocError> {
    match name {
        "registers" => run(alloc, heap, listed, room, &Registers),
        "strong" => run(alloc, heap, listed, room, &Strong),
        "ephemerons" => run(alloc, heap, listed, room, &Ephemerons),
        "groups" => run(alloc, heap, listed, room, &Groups),
        _ => Ok(None),
    }
}

/// When the constraint of a name may have something new to mark.
fn volatility_text(alloc: Global, name: &str) -> Result<Option<String>, AllocError> {
    let volatility = match name {
        "registers" => Registers.volatility(),
        "strong" => Strong.volatility(),
        "ephemerons" => Ephemerons.volatility(),
        "groups" => Groups.volatility(),
        _ => return Ok(None),
    };
    let volatility = match volatility {
        Volatility::SeldomGreyed => "SeldomGreyed",
        Volatility::GreyedByExecution => "GreyedByExecution",
        Volatility::GreyedByMarking => "GreyedByMarking",
    };
    answered(text(alloc, volatility))
}

/// Clears the weak handles to cells that aren't marked, or the pairs, and answers whether the word says which.
fn clear(heap: &mut Heap, what: &str) -> bool {
    match what {
        "weak" => clear_weak(&mut heap.words, &heap.layout),
        "pairs" => clear_pairs(&mut heap.words, &heap.layout),
        _ => return false,
    }
    true
}

/// What is asked of a heap, or is done to it, in two words that no list is for.
fn asked_of(
    alloc: Global,
    heap: &mut Heap,
    what: &str,
    at: &str,
) -> Result<Option<String>, AllocError> {
    match what {
        "is_live" => answered(live_text(alloc, heap, number(at))),
        "clear" => nothing_if(alloc, clear(heap, at)),
        "volatility" => volatility_text(alloc, at),
        _ => heap.word_text(alloc, what, at),
    }
}

/// What is asked of a heap, or is done to it.
fn asked(
    alloc: Global,
    heap: &mut Heap,
    listed: u32,
    room: &mut Room,
    words: &[&str],
) -> Result<Option<String>, AllocError> {
    match words {
        ["length"] => answered(number_text(alloc, heap.words.len() as u64)),
        ["marked"] => answered_numbers(alloc, marked_cells(alloc, heap)),
        ["run", name] => run_named(alloc, heap, listed, room, name),
        ["mark", cell] => mark_one(alloc, heap, listed, number(cell), 0),
        [what, at] => asked_of(alloc, heap, what, at),
        ["mark", "named", word] => match word_of(word) {
            Some(word) => mark_one(alloc, heap, listed, None, word),
            None => Ok(None),
        },
        ["label", label, "beside", cell] => label_text(alloc, &heap.layout, label, cell),
        _ => Ok(None),
    }
}

impl Bench {
    /// Does what the words say of the list and of the room, and answers whether they say such a thing.
    fn is_set(&mut self, words: &[&str]) -> bool {
        match words {
            ["listed", cell] => match number(cell) {
                Some(cell) => self.listed = cell,
                None => return false,
            },
            ["no", "room"] => self.room.is_wanting = true,
            _ => return false,
        }
        true
    }
}

impl Answers for Bench {
    fn begin(_alloc: Global) -> Result<Self, AllocError> {
        Ok(Bench::default())
    }

    fn answer(&mut self, alloc: Global, words: &[&str]) -> Result<Option<String>, AllocError> {
        if self.is_set(words) {
            return nothing_if(alloc, true);
        }
        if let Some(told) = tell(alloc, &mut self.heap, words)? {
            return Ok(Some(told));
        }
        match &mut self.heap {
            Some(heap) => asked(alloc, heap, self.listed, &mut self.room, words),
            None => Ok(None),
        }
    }
}
