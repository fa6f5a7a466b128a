//! What is done to heaps that stand still: a chain is marked, and the freeze code runs twice. It prints nothing.
ghost use Rattle.std.specs.Prelude.{◌≡◌, ◌≤◌, []};
ghost use Rattle.check_table.specs.Standing.{opened_once};
ghost use Rattle.tide_heap.specs.tide_freeze.Books.{AreBooks};
ghost use Rattle.tide_model.specs.Layout.{cell_count};
ghost use Rattle.tide_shape.specs.Lists.{lists_of};
ghost use Rattle.tide_table.specs.Started.{IsStarted};

use crate::chains::{Marked, mark_in_two, store_all};
use crate::freezing::{Runs, freeze_twice, stand_still};
use crate::pacing::PACING;
use crate::starting::{Single, start_single};
use check_heap::{Heap, layout_of, words_of};
use std::alloc::{AllocError, Global};
use tide_heap::{Books, GreyList, Layout, Report};
use tide_model::Memory;

/// The layout that words say.
fn layout_among(words: &[&str]) -> Option<Layout> {
    match words {
        ["layout", numbers @ ..] => layout_of(numbers),
        _ => None,
    }
}

/// The layout that a line says.
fn layout_in(alloc: Global, line: &str) -> Result<Option<Layout>, AllocError> {
    let words = words_of(alloc, line)?;
    Ok(layout_among(words.as_slice()))
}

/// Lets a heap be as lines say, and answers whether each says something.
fn say_all(alloc: Global, heap: &mut Heap, facts: &str) -> Result<bool, AllocError> {
    for fact in facts.lines() {
        let words = words_of(alloc, fact)?;
        if heap.say(words.as_slice()).is_none() {
            return Ok(false);
        }
    }
    Ok(true)
}

/// The heap that facts say, of which the first line is its layout.
pub fn heap_of_facts(alloc: Global, facts: &str) -> Result<Option<Heap>, AllocError> {
    let (first, others) = facts.split_once("\n").unwrap_or((facts, ""));
    let Some(layout) = layout_in(alloc, first)? else {
        return Ok(None);
    };
    let mut heap = Heap::new(alloc, layout)?;
    let is_said = say_all(alloc, &mut heap, others)?;
    Ok(if is_said { Some(heap) } else { None })
}

/// Stores a chain over the words of a heap that stands still, and marks it in two pauses within these budgets.
fn mark_over(
    single: Single,
    layout: &Layout,
    chain: &mut Heap,
    list: &mut GreyList,
    budgets: [u32; 2],
) -> Marked
    requires layout { single.heap.key.layout ≡ layout.now }
    requires started { IsStarted layout.now (lists_of single.heap.key.shapes) single.collector.seat.me.0 }
    requires one { (layout.now.mutators ≡ 1) × (layout.now.visitors ≡ 0) }
    requires empty { list.old.cells ≡ [] }
    requires room { cell_count layout.now ≤ list.old.cap }
{
    let Single {
        heap,
        mut collector,
        mut pass,
    } = single;
    let mut frozen = stand_still(&heap, &mut collector, &mut pass);
    store_all(&mut frozen, layout, chain);
    mark_in_two(&mut frozen, layout, list, budgets)
}

/// Stores a chain over the words of a frozen heap of one mutator, and marks it in two pauses within these budgets.
pub fn mark_chain(
    alloc: Global,
    chain: &mut Heap,
    budgets: [u32; 2],
) -> Result<Option<Marked>, Memory> {
    let layout = chain.layout;
    if layout.mutators() != 1 || layout.visitors() != 0 {
        return Ok(None);
    }
    let mut list = GreyList::new(alloc, layout.cells())?;
    match start_single(alloc, layout)? {
        Some(single) => Ok(Some(mark_over(single, &layout, chain, &mut list, budgets))),
        None => Ok(None),
    }
}

/// Runs the freeze code twice over a heap that stands still. The report tells the cycles that ended.
fn freeze_over(single: Single, layout: &Layout, books: &mut Books) -> Result<Runs, Memory>
    requires layout { single.heap.key.layout ≡ layout.now }
    requires started { IsStarted layout.now (lists_of single.heap.key.shapes) single.collector.seat.me.0 }
    requires one { (layout.now.mutators ≡ 1) × (layout.now.visitors ≡ 0) }
    requires books { AreBooks layout.now (opened_once 5) books.old }
{
    let Single {
        heap,
        mut collector,
        mut pass,
    } = single;
    let mut frozen = stand_still(&heap, &mut collector, &mut pass);
    freeze_twice(&mut frozen, layout, books)
}

/// Runs the freeze code twice over a frozen heap of one mutator: with nothing due, and then forced. The report tells
/// the cycles that ended.
pub fn freeze_single(alloc: Global) -> Result<Option<(Runs, Report)>, Memory> {
    let layout = Layout::new([1, 0, 0, 0, 1], [1, 0, 0, 0, 0], 4, 2, 2, 1, 0);
    let mut books = Books::new(alloc, &layout, PACING, 4, 256)?;
    let Some(single) = start_single(alloc, layout)? else {
        return Ok(None);
    };
    let runs = freeze_over(single, &layout, &mut books)?;
    let Books { report, .. } = books;
    Ok(Some((runs, report)))
}
