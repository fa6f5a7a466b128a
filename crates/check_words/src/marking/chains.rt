//! Long chains.
ghost use Rattle.std.specs.Prelude.{◌<◌, ◌≤◌};

use crate::marking::marking::Marking;
use check_heap::{Heap, small_number};
use std::alloc::{AllocError, Global};
use tide_layout::{Layout, Region};
use tide_model::Val;
use tide_solver::Solved;
use tide_words::{Colour, pair_word, val_word};

/// By what each cell of a chain holds the next one.
#[derive(Clone, Copy, PartialEq, Eq)]
enum Chain {
    /// Each cell that has slots by a slot.
    Links,
    /// By a slot and by a group in turn, so that each round of the solver finds one cell.
    Turns,
    /// As `Links`, and each table is held by a pair of the next table alone: they are gone through from the first on,
    /// so that one pass over them would find one.
    Tables,
    /// As `Tables`, but the last table holds the first, that one the last but one, and so on to the middle.
    Leaps,
}

/// The chain of a name.
fn chain_of(kind: &str) -> Option<Chain> {
    match kind {
        "links" => Some(Chain::Links),
        "turns" => Some(Chain::Turns),
        "tables" => Some(Chain::Tables),
        "leaps" => Some(Chain::Leaps),
        _ => None,
    }
}

/// The word of a cell as a value.
fn cell_word(cell: u32) -> u64 {
    val_word(Val::Cell(cell))
}

/// Lets a cell hold the one behind it.
fn hold_next(heap: &mut Heap, chain: Chain, cell: u32)
    requires { cell ≤ 20479 }
{
    let next = cell + 1;
    if chain == Chain::Turns && cell % 2 == 1 {
        heap.set(Region::Group, cell, u64::from(next));
        heap.set(Region::Group, next, u64::from(next));
    } else {
        heap.set_slot(cell, 0, cell_word(next));
    }
}

/// Which of so many tables stands at this place of a chain, from the one that is found first.
fn table_at(chain: Chain, tables: u32, at: u32) -> u32
    requires { at < tables }
    ensures { result < tables }
{
    if chain == Chain::Leaps && at % 2 == 1 {
        at / 2
    } else if chain == Chain::Leaps {
        tables - 1 - at / 2
    } else {
        tables - 1 - at
    }
}

/// Lets so many tables, of which this is the first, be held by a slot of a cell each, or each by a pair of the one
/// before it in a chain, under the cell 0, and the first of these by a register.
fn hold_tables(heap: &mut Heap, chain: Chain, first: u32, tables: u32)
    requires few { first ≤ 16384 }
    requires more { tables ≤ 4096 }
{
    for at in 0..tables {
        let table = first + table_at(chain, tables, at);
        if chain == Chain::Links || chain == Chain::Turns {
            heap.set_slot(at, 1, cell_word(table));
        } else if at == 0 {
            heap.set_register(0, 1, cell_word(table));
        } else {
            let holder = first + table_at(chain, tables, at - 1);
            heap.set_slot(holder, 0, pair_word(0, Val::Cell(table)));
        }
    }
}

/// A heap in which a register holds the first of all cells that have slots, each of them holds the next one, and each
/// table is held.
fn heap_of(alloc: Global, chain: Chain, blocks: u8) -> Result<Heap, AllocError>
    requires { blocks ≤ 64 }
{
    let layout = Layout::new([blocks; 5], [0; 5], 2, 0, 0, 1, 0);
    let tables = 64 * u32::from(blocks);
    let first_table = 4 * tables;
    let mut heap = Heap::new(alloc, layout)?;
    for cell in 0..5 * tables {
        heap.take_cell(cell);
    }
    heap.set_register(0, 0, cell_word(0));
    for cell in 1..first_table {
        hold_next(&mut heap, chain, cell - 1);
    }
    hold_tables(&mut heap, chain, first_table, tables);
    Ok(heap)
}

/// Marks a chain of this kind, of so many blocks a class. Answers whether the words say one, all of which was marked.
pub fn check_chain(alloc: Global, kind: &str, blocks: &str) -> Result<bool, AllocError> {
    let (Some(chain), Some(blocks)) = (chain_of(kind), small_number(blocks)) else {
        return Ok(false);
    };
    if blocks < 1 || blocks > 64 {
        return Ok(false);
    }
    let heap = heap_of(alloc, chain, blocks)?;
    let mut marking = Marking::begin(alloc, heap)?;
    let visits = marking.cells();
    let solved = marking.solve(visits);
    let black = marking.cells_of(alloc, Colour::Black)?;
    Ok(solved == Solved::Converged { visits } && black.len() == visits as usize)
}
