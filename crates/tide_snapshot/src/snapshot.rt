//! `Snapshot`: the lines of a heap's cells at one moment. It keeps no word of the heap.
ghost use Rattle.std.specs.Prelude.{ℕ, ◌≡◌, ◌↔◌, ◌<◌, ◌≤◌, true, List, IsTrue, IfOk, OnErr, OnOk, length, max};
ghost use Rattle.std.specs.Io.KnownBytes.{Appends};
ghost use Rattle.tide_io.specs.Faults.{AppendsPart, HasCause};
ghost use Rattle.tide_words.specs.tide_layout.Region.{word_count};
ghost use Rattle.tide_model.specs.Graph.{graph_of};
ghost use Rattle.tide_model.specs.Layout.{Layout as PlainLayout};
ghost use Rattle.tide_model.specs.State.{State, live};
ghost use Rattle.tide_shape.specs.Shapes.{shapes_of_paths};
ghost use Rattle.tide_words.specs.heap.Heap.{heap_of};
ghost use Rattle.tide_words.specs.heap.Reading.{ReadsAs};
ghost use Rattle.tide_retained.specs.Contents.{is_kept, HasKeysOf};
ghost use Rattle.tide_retained.specs.Holding.{HasShapes, IsSnapshotOf};
ghost use Rattle.tide_retained.specs.Path.{IsDistanceOf};
ghost use Rattle.tide_snapshot.specs.Line.{AreLinesIn, IsLineIn};
ghost use Rattle.tide_snapshot.specs.Written.{HasNamedKeys};

use crate::writing::{names_of, write_all_lines, write_cell_line};
use std::alloc::Global;
use std::marker::Model;
use tide_io::{Failed, Sink};
use tide_model::Memory;
use tide_retained::Retained;
use tide_shape::ShapeTable;
use tide_text::{Keys, Workload};
use tide_words::{Layout, Words};

/// What a heap held at one moment, and a shortest path to each cell that was retained.
#[derive(Drop)]
pub struct Snapshot {
    retained: Retained,
}

impl Model for Snapshot {
    ghost use Rattle.tide_retained.specs.declared.contents.Contents.{Contents};
    ghost use Rattle.tide_retained.specs.Retention.{HasShortestPaths};

    ghost Value = { Contents };

    ghost view = { λ s. s.retained.contents };

    ghost invariant = { λ s. HasShortestPaths s.retained };
}

/// A snapshot of the state that the words read as: what each live cell holds, what the roots hold, and a shortest path
/// to each cell that is retained. It takes memory for all of this, and changes no word. Of the words it asks no more
/// than that the structures of live cells name shapes of the table, as those of a state do
/// (`tide_retained::laws::states_may_be_taken`).
pub fn take<W: Words, S: ShapeTable>(
    alloc: Global,
    words: &mut W,
    layout: &Layout,
    shapes: &S,
) -> Result<Snapshot, Memory>
    requires all_words { length (W.words words.old) ≡ word_count layout.now }
    requires names { HasShapes layout.now (S.lists shapes.now) (heap_of layout.now (W.words words.old)) }
    ensures snapshot { IfOk result (λ snapshot. (state : State) → ReadsAs layout.now (S.lists shapes.now)
        (heap_of layout.now (W.words words.old)) state → IsSnapshotOf layout.now state snapshot) }
    ensures keys { IfOk result (λ snapshot. HasKeysOf (S.lists shapes.now) snapshot) }
    ensures same { W.words words.new ≡ W.words words.old }
    ensures same_rest { W.rest words.new ≡ W.rest words.old }
{
    let retained = Retained::of(alloc, words, layout, shapes)?;
    Ok(Snapshot { retained })
}

impl Snapshot {
    /// How many steps the shortest path to a cell has, or `None` where the cell isn't retained.
    pub fn distance(&self, cell: u32) -> Option<u32>
        requires { cell < max 20480 (length self.now.cells.items) }
        ensures { (layout : PlainLayout) (state : State) → IsSnapshotOf layout state self.now →
            IsDistanceOf (graph_of state) cell result }
    {
        self.retained.distance(cell)
    }

    /// Whether a cell was live.
    pub fn is_live(&self, cell: u32) -> bool
        ensures live { (layout : PlainLayout) (state : State) → IsSnapshotOf layout state self.now →
            IsTrue result ↔ ((state.cells cell).status ≡ live) }
        ensures kept { result ≡ is_kept self.now cell }
    {
        self.retained.is_live(cell)
    }

    /// There are lines of what was live, under any names of keys: a law, which has no code.
    pub fn has_lines(&self)
        ensures { (names : List (List ℕ)) → (text : List ℕ) × AreLinesIn self.now names text }
    {
        let _retained = &self.retained;
    }

    /// Writes the line of a cell that was live: what it held, and a shortest path to it, or that there is none. The
    /// workload is the one whose paths made the shapes that the snapshot was taken with. It takes no memory.
    pub fn write_cell<K: Sink>(&self, out: &mut K, load: &Workload, cell: u32) -> Result<(), Failed>
        requires live { is_kept self.now cell ≡ true }
        requires shapes { HasKeysOf (shapes_of_paths load.now.paths) self.now }
        ensures whole { OnOk result ((text : List ℕ) × IsLineIn self.now load.now.keys cell text
            × Appends (K.held out.old) (K.held out.new) text) }
        ensures part { OnErr result ((text : List ℕ) × IsLineIn self.now load.now.keys cell text
            × AppendsPart (K.held out.old) (K.held out.new) text) }
        ensures cause { HasCause (K.faults out.old) (K.faults out.new) result }
    {
        write_cell_line(out, names_of(load), &self.retained, cell)
    }

    /// Writes the lines of all cells that were live, in rising order. The workload is the one whose paths made the
    /// shapes that the snapshot was taken with. It takes no memory.
    pub fn write_lines<K: Sink>(&self, out: &mut K, load: &Workload) -> Result<(), Failed>
        requires shapes { HasKeysOf (shapes_of_paths load.now.paths) self.now }
        ensures whole { OnOk result ((text : List ℕ) × AreLinesIn self.now load.now.keys text
            × Appends (K.held out.old) (K.held out.new) text) }
        ensures part { OnErr result ((text : List ℕ) × AreLinesIn self.now load.now.keys text
            × AppendsPart (K.held out.old) (K.held out.new) text) }
        ensures cause { HasCause (K.faults out.old) (K.faults out.new) result }
    {
        write_all_lines(out, names_of(load), &self.retained)
    }

    /// Writes the lines of all cells that were live, in rising order, with names of a caller's own: each key that a cell
    /// has is named. It takes no memory.
    pub fn write_lines_named<K: Sink>(&self, out: &mut K, names: &Keys) -> Result<(), Failed>
        requires named { HasNamedKeys (length names.now) self.now }
        ensures whole { OnOk result ((text : List ℕ) × AreLinesIn self.now names.now text
            × Appends (K.held out.old) (K.held out.new) text) }
        ensures part { OnErr result ((text : List ℕ) × AreLinesIn self.now names.now text
            × AppendsPart (K.held out.old) (K.held out.new) text) }
        ensures cause { HasCause (K.faults out.old) (K.faults out.new) result }
    {
        write_all_lines(out, names, &self.retained)
    }
}
