//! `Retained`: what a heap held at one moment, and a shortest path to each cell that was retained. It keeps no word of
//! the heap.
ghost use Rattle.std.specs.Prelude.{◌≡◌, ◌↔◌, ◌<◌, ◌≤◌, IfNone, IfOk, IfSome, IsTrue, None, Some, length, max, option_map};
ghost use Rattle.tide_words.specs.tide_layout.Region.{word_count};
ghost use Rattle.tide_model.specs.Graph.{graph_of};
ghost use Rattle.tide_model.specs.Layout.{Layout as PlainLayout};
ghost use Rattle.tide_model.specs.State.{State, live};
ghost use Rattle.tide_words.specs.heap.Heap.{heap_of};
ghost use Rattle.tide_words.specs.heap.Reading.{ReadsAs};
ghost use Rattle.tide_retained.specs.Contents.{held_at, is_kept, HasKeysOf};
ghost use Rattle.tide_retained.specs.Holding.{HasShapes, IsSnapshotOf};
ghost use Rattle.tide_retained.specs.Path.{IsDistanceOf};
ghost use Rattle.tide_retained.specs.Retention.{cells_on, path_of, way_on, AreFrom, HasShortestPaths};
ghost use Rattle.tide_retained.specs.Searching.{HasKeysBelow};

use crate::Root;
use crate::contents::{Contents, Held};
use crate::index::{groups_of, keys_of};
use crate::known::cells_known;
use crate::phases::{found, retained};
use crate::reading::read_contents;
use crate::search::Found;
use crate::trail::{note_way, place_of, skips};
use std::alloc::Global;
use std::marker::Model;
use tide_model::Memory;
use tide_shape::ShapeTable;
use tide_words::{Layout, Words};

/// What a heap held at one moment, and a shortest path to each cell that was retained.
#[derive(Drop)]
pub struct Retained {
    contents: Contents,
    found: Vec<Option<Found>>,
    skips: Vec<u32>,
}

impl Model for Retained {
    ghost use Rattle.tide_retained.specs.Retention.{Retention};
    ghost use Rattle.tide_retained.specs.Trail.{HasPaths};

    ghost Value = { Retention };

    ghost view = { λ r. record { contents = r.contents; found = r.found.items } };

    ghost invariant = { λ r. HasPaths r.contents r.found.items r.skips.items };
}

/// Where the path to a cell begins, and how many steps it has.
#[derive(Clone, Copy)]
pub struct Way {
    pub root: Root,
    pub steps: u32,
}

/// What is retained of what contents hold.
fn retained_of(alloc: Global, contents: Contents) -> Result<Retained, Memory>
    requires cells { length contents.cells.items ≤ 83886080 }
    requires few { HasKeysBelow 83886080 contents }
    ensures contents { IfOk result (λ kept. kept.contents ≡ contents) }
    ensures paths { IfOk result HasShortestPaths }
{
    let groups = groups_of(alloc, &contents)?;
    let keys = keys_of(alloc, &contents)?;
    let cells = cells_known(&contents);
    let retained = retained(alloc, &contents, &groups, &keys, cells)?;
    let (found, order) = found(alloc, &contents, &groups, retained)?;
    let skips = skips(alloc, found.as_slice(), order.as_slice())?;
    Ok(Retained {
        contents,
        found,
        skips,
    })
}

impl Retained {
    /// What is retained in the state that the words read as, and a shortest path to each cell that is. It takes memory
    /// for this and for what each live cell holds, and changes no word. Of the words it asks no more than that the
    /// structures of live cells name shapes of the table, as those of a state do (`laws::states_may_be_taken`).
    pub fn of<W: Words, S: ShapeTable>(
        alloc: Global,
        words: &mut W,
        layout: &Layout,
        shapes: &S,
    ) -> Result<Retained, Memory>
        requires all_words { length (W.words words.old) ≡ word_count layout.now }
        requires names { HasShapes layout.now (S.lists shapes.now) (heap_of layout.now (W.words words.old)) }
        ensures contents { IfOk result (λ kept. (state : State) → ReadsAs layout.now (S.lists shapes.now)
            (heap_of layout.now (W.words words.old)) state → IsSnapshotOf layout.now state kept.contents) }
        ensures paths { IfOk result HasShortestPaths }
        ensures keys { IfOk result (λ kept. HasKeysOf (S.lists shapes.now) kept.contents) }
        ensures same { W.words words.new ≡ W.words words.old }
        ensures same_rest { W.rest words.new ≡ W.rest words.old }
    {
        let contents = read_contents(alloc, words, layout, shapes)?;
        retained_of(alloc, contents)
    }

    /// How many cells the heap had.
    pub fn cells(&self) -> u32
        ensures { result ≡ length self.now.contents.cells.items }
    {
        self.contents.cells.len() as u32
    }

    /// How many steps the shortest path to a cell has, or `None` where the cell isn't retained. A root may hold a cell
    /// that the heap doesn't have: of any below 20,480 it is told, too.
    pub fn distance(&self, cell: u32) -> Option<u32>
        requires { cell < max 20480 (length self.now.contents.cells.items) }
        ensures { (layout : PlainLayout) (state : State) → IsSnapshotOf layout state self.now.contents →
            IsDistanceOf (graph_of state) cell result }
    {
        match place_of(self.found.as_slice(), cell) {
            Some(place) => Some(place.distance),
            None => None,
        }
    }

    /// What a cell held, or `None` where it wasn't live.
    pub fn held(&self, cell: u32) -> Option<&Held>
        ensures some { IfSome result (λ held. held_at self.now.contents cell ≡ Some held.now) }
        ensures none { IfNone result (held_at self.now.contents cell ≡ None) }
    {
        self.contents.held(cell)
    }

    /// Whether a cell was live.
    pub fn is_live(&self, cell: u32) -> bool
        ensures live { (layout : PlainLayout) (state : State) → IsSnapshotOf layout state self.now.contents →
            IsTrue result ↔ ((state.cells cell).status ≡ live) }
        ensures kept { result ≡ is_kept self.now.contents cell }
    {
        self.contents.held(cell).is_some()
    }

    /// The way to a cell, or `None` where no path leads to it.
    pub fn way(&self, cell: u32) -> Option<Way>
        ensures { result ≡ option_map way_on (path_of self.now cell) }
    {
        match place_of(self.found.as_slice(), cell) {
            Some(place) => Some(Way {
                root: place.root,
                steps: place.distance,
            }),
            None => None,
        }
    }

    /// Notes cells of the path to a cell, one behind another, from the one that is so many steps from its first on: as
    /// many as there is room for. It takes no memory, and little more time than to note them.
    pub fn cells_on_way(&self, cell: u32, steps: u32, cells: &mut [u32])
        requires { steps < length (cells_on (path_of self.now cell)) }
        ensures same_size { length cells.new ≡ length cells.old }
        ensures each { AreFrom (cells_on (path_of self.now cell)) steps cells.new }
    {
        let found = self.found.as_slice();
        let skips = self.skips.as_slice();
        note_way(found, skips, cell, steps, cells);
    }
}
