//! A snapshot, with the workload whose path made its shapes.
use crate::snapshot::naming::name_shapes;
use check_heap::{Heap, MOST_CELLS, joined, text};
use std::alloc::{AllocError, Global};
use std::marker::Model;
use tide_io::MemSink;
use tide_shape::Shapes;
use tide_snapshot::{Snapshot, take};
use tide_text::Workload;
use tide_workload::read;

/// A snapshot of a heap, and the workload that declares the keys of its cells.
#[derive(Drop)]
pub struct Shot {
    load: Workload,
    snapshot: Snapshot,
}

impl Model for Shot {
    ghost use Rattle.tide_shape.specs.Shapes.{shapes_of_paths};
    ghost use Rattle.tide_retained.specs.Contents.{HasKeysOf};

    ghost Value = { Unit {0} };

    ghost view = { λ _. tt };

    ghost invariant = { λ s. HasKeysOf (shapes_of_paths s.load.paths) s.snapshot };
}

/// A workload that declares one path of keys, or none, and makes no call.
pub fn workload_of(alloc: Global, keys: &str) -> Result<Option<Workload>, AllocError> {
    let path = if keys.is_empty() {
        text(alloc, "")?
    } else {
        joined(alloc, &["\"", keys, "\""])?
    };
    let document = joined(
        alloc,
        &[
            "registers = 1\nstrong = 0\nweak = 0\nblocks = [1, 0, 0, 0, 0]\n",
            "arrays = [0, 0, 0, 0, 0]\nperiod = 16\nheadroom = 32\nshapes = [",
            path.as_str(),
            "]\n\n[[mutator]]\nops = [\"collect\"]\n",
        ],
    )?;
    Ok(read(alloc, document.as_bytes()).ok())
}

impl Shot {
    /// A snapshot of a heap, or `None` where its words name shapes that the workload doesn't declare.
    pub fn of(alloc: Global, heap: &mut Heap, load: Workload) -> Result<Option<Shot>, AllocError> {
        let Ok(shapes) = Shapes::new(alloc, load.paths()) else {
            return Ok(None);
        };
        if !name_shapes(&mut heap.words, &heap.layout, &shapes) {
            return Ok(None);
        }
        match take(alloc, &mut heap.words, &heap.layout, &shapes) {
            Ok(snapshot) => Ok(Some(Shot { load, snapshot })),
            Err(_) => Err(AllocError),
        }
    }

    /// How far a cell is, or `None` where it isn't retained or no heap has it.
    pub fn distance(&self, cell: u32) -> Option<u32> {
        if cell < MOST_CELLS {
            self.snapshot.distance(cell)
        } else {
            None
        }
    }

    /// Whether a cell is live.
    pub fn is_live(&self, cell: u32) -> bool {
        self.snapshot.is_live(cell)
    }

    /// What a sink with room for so many bytes holds once the line of a live cell was written to it, and whether all
    /// of the line was. `None` where the cell isn't live.
    pub fn line(
        &self,
        alloc: Global,
        cell: u32,
        room: usize,
    ) -> Result<Option<Written>, AllocError> {
        if !self.snapshot.is_live(cell) {
            return Ok(None);
        }
        let mut sink = sink_for(alloc, room)?;
        let is_whole = self
            .snapshot
            .write_cell(&mut sink, &self.load, cell)
            .is_ok();
        Ok(Some(held_by(alloc, &sink, is_whole)?))
    }

    /// What a sink with room for so many bytes holds once the lines of all live cells were written to it, and whether
    /// all of these were.
    pub fn lines(&self, alloc: Global, room: usize) -> Result<Written, AllocError> {
        let mut sink = sink_for(alloc, room)?;
        let is_whole = self.snapshot.write_lines(&mut sink, &self.load).is_ok();
        held_by(alloc, &sink, is_whole)
    }
}

/// A sink with room for so many bytes.
fn sink_for(alloc: Global, room: usize) -> Result<MemSink, AllocError> {
    match MemSink::new(alloc, room, room.max(1), Vec::new(alloc)) {
        Ok(sink) => Ok(sink),
        Err(_) => Err(AllocError),
    }
}

/// What a sink holds.
fn held_by(alloc: Global, sink: &MemSink, is_whole: bool) -> Result<Written, AllocError> {
    let held = std::str::from_utf8(sink.held()).unwrap_or("no text");
    Ok(Written {
        text: text(alloc, held)?,
        is_whole,
    })
}

/// What was written of a line.
#[derive(Drop)]
pub struct Written {
    pub text: String,
    pub is_whole: bool,
}
