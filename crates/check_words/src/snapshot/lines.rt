//! Heaps that are told by facts, and the lines of their cells.
//!
//! The lines of a row: `layout ..` and the facts of `Heap::say`, and, where cells have properties, `keys KEYS`, the
//! path of which each has the first so many. Then
//!
//! - `line CELL` is answered with the line of a cell, `dead` where it isn't live, and `unended` where it doesn't end;
//! - `line CELL within ROOM` with what a sink with room for so many bytes holds of it, and `all` or `failed`;
//! - `lines` with the lines of all live cells, ` | ` between them, and `lines within ROOM` with what a sink with room
//!   for so many bytes holds of them;
//! - `distance CELL` with how far it is, and `none` where nothing retains it;
//! - `distances` with each cell that is retained and how far it is.
//!
//! The first of these takes the snapshot. All are answered with `refused` where the words name shapes that aren't
//! declared.

use crate::snapshot::shot::{Shot, Written, workload_of};
use check_heap::{
    Answers, Heap, MOST_CELLS, joined, layout_of, number, number_or_none, numbers_text, text,
};
use std::alloc::{AllocError, Global};
use tide_text::Workload;

/// Room for any line of a row.
const ROOM: usize = 4_096;

/// A heap until its snapshot is taken, the workload that declares its keys, and the snapshot.
#[derive(Default, Drop)]
pub struct Lines {
    heap: Option<Heap>,
    load: Option<Workload>,
    shot: Option<Shot>,
}

/// What is answered of a line, or `None` where its words ask nothing that can be answered.
type Answer = Result<Option<String>, AllocError>;

/// The line without its end.
fn ended(alloc: Global, line: &str) -> Result<String, AllocError> {
    text(alloc, line.strip_suffix("\n").unwrap_or("unended"))
}

/// The lines of all live cells, or what a sink with less room holds of them.
fn all_lines(alloc: Global, shot: &Shot, room: Option<u32>) -> Result<String, AllocError> {
    let size = match room {
        Some(room) => room as usize,
        None => ROOM,
    };
    let written = shot.lines(alloc, size)?;
    if !written.is_whole && room.is_none() {
        return text(alloc, "too long");
    }
    let mut all = text(alloc, if written.is_whole { "all" } else { "failed" })?;
    for line in written.text.as_str().lines() {
        all.push_str(" | ")?;
        all.push_str(line)?;
    }
    Ok(all)
}

/// What was written, and whether it was all.
fn part_text(alloc: Global, written: &Written) -> Result<String, AllocError> {
    let how = if written.is_whole { "all" } else { "failed" };
    if written.text.is_empty() {
        return text(alloc, how);
    }
    let line = written.text.as_str();
    joined(alloc, &[how, " ", line.strip_suffix("\n").unwrap_or(line)])
}

/// The line of a cell, or what a sink with less room holds of it.
fn line(alloc: Global, shot: &Shot, cell: u32, room: Option<u32>) -> Result<String, AllocError> {
    let size = match room {
        Some(room) => room as usize,
        None => ROOM,
    };
    let Some(written) = shot.line(alloc, cell, size)? else {
        return text(alloc, "dead");
    };
    match room {
        Some(_) => part_text(alloc, &written),
        None => ended(alloc, written.text.as_str()),
    }
}

/// Each cell that is retained, and how far it is.
fn distances(alloc: Global, shot: &Shot) -> Result<String, AllocError> {
    let mut all = Vec::new(alloc);
    for cell in 0..MOST_CELLS {
        if let Some(distance) = shot.distance(cell) {
            all.push(cell)?;
            all.push(distance)?;
        }
    }
    numbers_text(alloc, all.as_slice())
}

/// What a snapshot tells.
fn told(alloc: Global, shot: &Shot, words: &[&str]) -> Answer {
    let (what, cell, room) = match words {
        ["distances"] => return Ok(Some(distances(alloc, shot)?)),
        ["lines"] => return Ok(Some(all_lines(alloc, shot, None)?)),
        ["lines", "within", room] => return Ok(Some(all_lines(alloc, shot, number(room))?)),
        [what, cell] => (*what, *cell, None),
        [what, cell, "within", room] => (*what, *cell, number(room)),
        _ => return Ok(None),
    };
    let Some(cell) = number(cell) else {
        return Ok(None);
    };
    let answer = match what {
        "line" => line(alloc, shot, cell, room)?,
        "distance" => number_or_none(alloc, shot.distance(cell))?,
        _ => return Ok(None),
    };
    Ok(Some(answer))
}

impl Lines {
    /// Takes the snapshot of the heap, unless it is taken.
    fn take(&mut self, alloc: Global) -> Result<(), AllocError> {
        let Some(mut heap) = self.heap.take() else {
            return Ok(());
        };
        let load = match self.load.take() {
            Some(load) => Some(load),
            None => workload_of(alloc, "")?,
        };
        if let Some(load) = load {
            self.shot = Shot::of(alloc, &mut heap, load)?;
        }
        Ok(())
    }

    /// Tells the heap what the words say, and answers whether there is such a thing.
    fn hear(&mut self, alloc: Global, words: &[&str]) -> Result<bool, AllocError> {
        if let ["layout", layout @ ..] = words {
            let Some(layout) = layout_of(layout) else {
                return Ok(false);
            };
            self.heap = Some(Heap::new(alloc, layout)?);
            return Ok(true);
        }
        match &mut self.heap {
            Some(heap) => Ok(heap.say(words).is_some()),
            None => Ok(false),
        }
    }

    /// Declares a path of keys, and answers whether it is one.
    fn declare(&mut self, alloc: Global, keys: &[&str]) -> Result<bool, AllocError> {
        let mut path = String::new(alloc);
        for key in keys {
            if !path.is_empty() {
                path.push_str(" ")?;
            }
            path.push_str(key)?;
        }
        self.load = workload_of(alloc, path.as_str())?;
        Ok(self.load.is_some())
    }
}

impl Answers for Lines {
    fn begin(_alloc: Global) -> Result<Self, AllocError> {
        Ok(Lines::default())
    }

    fn answer(&mut self, alloc: Global, words: &[&str]) -> Result<Option<String>, AllocError> {
        let is_done = match words {
            ["line" | "lines" | "distance" | "distances", ..] => {
                self.take(alloc)?;
                return match &self.shot {
                    Some(shot) => told(alloc, shot, words),
                    None => Ok(Some(text(alloc, "refused")?)),
                };
            }
            ["keys", keys @ ..] => self.declare(alloc, keys)?,
            _ => self.hear(alloc, words)?,
        };
        if is_done {
            return Ok(Some(text(alloc, "")?));
        }
        Ok(None)
    }
}
