//! Large heaps, and how far their cells are.
//!
//! - `chain`: a strong handle holds the first cell, each cell with slots the next one, and each table the next one by
//!   a pair of its own under the first cell. The last cell with slots holds the first table.
//! - `group`: all cells are in one group, and a strong handle holds the last of them.
//! - `worst`: each cell with slots holds the next one. Each table holds by one pair the table before it, and the key of
//!   that pair is the last cell with slots, so that no table leads anywhere until all these cells are found.
ghost use Rattle.std.specs.Prelude.{◌≤◌};

use crate::snapshot::shot::{Shot, workload_of};
use check_heap::{Heap, MOST_CELLS, small_number};
use std::alloc::{AllocError, Global};
use tide_layout::{Layout, Region};
use tide_model::Val;
use tide_text::Workload;
use tide_words::{pair_word, val_word};

/// What a large heap is like.
#[derive(Clone, Copy, PartialEq, Eq)]
enum Kind {
    Chain,
    Group,
    Worst,
}

/// The kind of a name.
fn kind_of(name: &str) -> Option<Kind> {
    match name {
        "chain" => Some(Kind::Chain),
        "group" => Some(Kind::Group),
        "worst" => Some(Kind::Worst),
        _ => None,
    }
}

/// The word of a cell as a value.
fn cell_word(cell: u32) -> u64 {
    val_word(Val::Cell(cell))
}

/// The word of a pair, and 0 where no heap has the key.
fn pair_of(key: u32, value: u32) -> u64 {
    if key < MOST_CELLS {
        pair_word(key, Val::Cell(value))
    } else {
        0
    }
}

/// Lets each cell hold the next one: those with slots, of which there are so many, by a slot, and tables by a pair.
fn make_chain(heap: &mut Heap, cells: u32, with_slots: u32) {
    heap.set(Region::Strong, 0, cell_word(0));
    for cell in 1..cells {
        let before = cell - 1;
        if before < with_slots {
            heap.set_slot(before, 0, cell_word(cell));
        } else {
            heap.set_slot(before, 0, pair_of(0, cell));
        }
    }
}

/// Puts all cells into one group, of which a strong handle holds the last.
fn make_group(heap: &mut Heap, cells: u32) {
    for cell in 0..cells {
        heap.set(Region::Group, cell, 7);
    }
    heap.set(Region::Strong, 0, cell_word(cells.saturating_sub(1)));
}

/// Lets the cells with slots hold one the next, and each table the one before it under the last of those.
fn make_worst(heap: &mut Heap, cells: u32, with_slots: u32) {
    heap.set(Region::Strong, 0, cell_word(0));
    heap.set(Region::Strong, 1, cell_word(cells.saturating_sub(1)));
    for cell in 1..with_slots {
        heap.set_slot(cell - 1, 0, cell_word(cell));
    }
    for table in with_slots..cells {
        if with_slots < table {
            heap.set_slot(table, 0, pair_of(with_slots.saturating_sub(1), table - 1));
        }
    }
}

/// How far a cell of a heap of this kind is.
fn expected(kind: Kind, cells: u32, with_slots: u32, cell: u32) -> u32 {
    match kind {
        Kind::Chain => cell,
        Kind::Group => u32::from(cell.saturating_add(1) != cells),
        Kind::Worst if cell < with_slots => cell,
        Kind::Worst => cells.saturating_sub(1).saturating_sub(cell),
    }
}

/// A heap of this kind with so many blocks of each class.
fn heap_of(alloc: Global, kind: Kind, blocks: u8) -> Result<Heap, AllocError>
    requires { blocks ≤ 64 }
{
    let layout = Layout::new([blocks; 5], [0; 5], 1, 2, 0, 1, 0);
    let cells = layout.cells();
    let with_slots = 256 * u32::from(blocks);
    let mut heap = Heap::new(alloc, layout)?;
    for cell in 0..cells {
        heap.take_cell(cell);
    }
    match kind {
        Kind::Chain => make_chain(&mut heap, cells, with_slots),
        Kind::Group => make_group(&mut heap, cells),
        Kind::Worst => make_worst(&mut heap, cells, with_slots),
    }
    Ok(heap)
}

/// A large heap, and what it is like.
#[derive(Drop)]
pub struct Large {
    kind: Kind,
    with_slots: u32,
    heap: Heap,
}

impl Large {
    /// The heap of this kind with so many blocks of each class, or `None` where there is no such heap.
    pub fn new(alloc: Global, kind: &str, blocks: &str) -> Result<Option<Large>, AllocError> {
        let (Some(kind), Some(blocks)) = (kind_of(kind), small_number(blocks)) else {
            return Ok(None);
        };
        if blocks < 1 || blocks > 64 {
            return Ok(None);
        }
        let heap = heap_of(alloc, kind, blocks)?;
        let with_slots = 256 * u32::from(blocks);
        Ok(Some(Large {
            kind,
            with_slots,
            heap,
        }))
    }

    /// Its snapshot, or `None` where its words say none.
    pub fn shot(&mut self, alloc: Global, load: Workload) -> Result<Option<Shot>, AllocError> {
        Shot::of(alloc, &mut self.heap, load)
    }

    /// Whether all of its cells are as far as they should be.
    pub fn is_as_far(&self, shot: &Shot) -> bool {
        let cells = self.heap.layout.cells();
        for cell in 0..cells {
            if shot.distance(cell) != Some(expected(self.kind, cells, self.with_slots, cell)) {
                return false;
            }
        }
        true
    }
}

/// Takes the snapshot of a heap of this kind, of so many blocks a class. Answers whether the words say one, all of
/// whose cells are as far as they should be.
pub fn check_large(alloc: Global, kind: &str, blocks: &str) -> Result<bool, AllocError> {
    let Some(mut large) = Large::new(alloc, kind, blocks)? else {
        return Ok(false);
    };
    let Some(load) = workload_of(alloc, "")? else {
        return Ok(false);
    };
    match large.shot(alloc, load)? {
        Some(shot) => Ok(large.is_as_far(&shot)),
        None => Ok(false),
    }
}
