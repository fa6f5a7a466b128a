//! The shapes of declared paths, asked through what the store sees of them.
//!
//! The lines of a row: `path KEYS` declares one more path, and `shapes` is answered with `made`, or with the first path
//! that names a key twice. Then `shape KEYS` is answered with the number of the shape that has these keys, `keys KEYS`
//! with that shape's keys one by one, and `place KEY in KEYS` with the place of a key in it, each with `none` where
//! there is none. `capacity COUNT` is answered with the capacity of the array that so many properties take.
ghost use Rattle.std.specs.Prelude.{◌≡◌, ◌<◌, length, IfSome};
ghost use Rattle.tide_shape.specs.Lists.{lists_of};

use check_heap::{
    Answers, number, number_between, number_or_none, number_text, numbers, numbers_text, text,
};
use std::alloc::{AllocError, Global};
use tide_shape::{Paths, ShapeTable, Shapes, ShapesRefused, capacity};

/// The declared paths, and their shapes once they are made.
#[derive(Drop)]
pub struct Declared {
    paths: Vec<Vec<u32>>,
    shapes: Option<Shapes>,
}

/// The shapes of at most 64 paths of 1 to 64 keys, or why there are none.
pub fn shapes_from(
    alloc: Global,
    declared: &[Vec<u32>],
) -> Result<Result<Shapes, ShapesRefused>, AllocError> {
    let mut paths = Paths::new(alloc);
    for path in declared {
        let is_path = 1 <= path.len() && path.len() <= 64;
        let has_room = paths.len() < 64;
        if is_path && has_room && paths.push(path.as_slice().to_vec(alloc)?).is_err() {
            return Err(AllocError);
        }
    }
    Ok(Shapes::new(alloc, &paths))
}

/// The shape that has these keys, found from the empty one.
fn found(table: &Shapes, keys: &[u32]) -> Option<u32>
    ensures { IfSome result (λ shape. shape < length (lists_of table.now)) }
{
    let mut shape = 0;
    for key in keys {
        shape = table.next(shape, *key)?;
    }
    Some(shape)
}

/// The place of a key in the shape that has these keys.
fn place_in(table: &Shapes, keys: &[u32], key: u32) -> Option<u32> {
    let shape = found(table, keys)?;
    table.place(shape, key)
}

/// The keys of the shape that has these keys, one by one.
fn keys_of(alloc: Global, table: &Shapes, keys: &[u32]) -> Result<Option<Vec<u32>>, AllocError> {
    let Some(shape) = found(table, keys) else {
        return Ok(None);
    };
    let mut all = Vec::new(alloc);
    for place in 0..table.count(shape) {
        all.push(table.key_at(shape, place))?;
    }
    Ok(Some(all))
}

/// What shapes answer about the one that has these keys.
fn told_of(
    alloc: Global,
    shapes: &Shapes,
    what: &str,
    keys: &[u32],
) -> Result<Option<String>, AllocError> {
    let answer = match what {
        "shape" => number_or_none(alloc, found(shapes, keys))?,
        "keys" => match keys_of(alloc, shapes, keys)? {
            Some(keys) => numbers_text(alloc, keys.as_slice())?,
            None => text(alloc, "no shape")?,
        },
        _ => match number(what) {
            Some(key) => number_or_none(alloc, place_in(shapes, keys, key))?,
            None => return Ok(None),
        },
    };
    Ok(Some(answer))
}

/// What shapes answer.
fn told(alloc: Global, shapes: &Shapes, words: &[&str]) -> Result<Option<String>, AllocError> {
    let (what, words) = match words {
        ["place", key, "in", keys @ ..] => (key, keys),
        [what, keys @ ..] => (what, keys),
        _ => return Ok(None),
    };
    match numbers(alloc, words)? {
        Some(keys) => told_of(alloc, shapes, what, keys.as_slice()),
        None => Ok(None),
    }
}

/// The text of the capacity of so many properties, 64 at most.
fn capacity_text(alloc: Global, count: Option<u32>) -> Result<Option<String>, AllocError> {
    match count {
        Some(count) if count <= 64 => Ok(Some(number_text(alloc, u64::from(capacity(count)))?)),
        _ => Ok(None),
    }
}

impl Declared {
    /// Makes the shapes of the declared paths.
    fn make(&mut self, alloc: Global) -> Result<String, AllocError> {
        match shapes_from(alloc, self.paths.as_slice())? {
            Ok(shapes) => {
                self.shapes = Some(shapes);
                text(alloc, "made")
            }
            Err(ShapesRefused::DoubleKey { path }) => number_between(
                alloc,
                "double key in ",
                path as u64,
                "",
            ),
            Err(ShapesRefused::Memory) => Err(AllocError),
        }
    }

    /// Declares one more path.
    fn declare(&mut self, alloc: Global, keys: &[&str]) -> Result<Option<String>, AllocError> {
        match numbers(alloc, keys)? {
            Some(path) => {
                self.paths.push(path)?;
                Ok(Some(text(alloc, "")?))
            }
            None => Ok(None),
        }
    }
}

impl Answers for Declared {
    fn begin(alloc: Global) -> Result<Self, AllocError> {
        Ok(Declared {
            paths: Vec::new(alloc),
            shapes: None,
        })
    }

    fn answer(&mut self, alloc: Global, words: &[&str]) -> Result<Option<String>, AllocError> {
        match words {
            ["path", keys @ ..] => self.declare(alloc, keys),
            ["shapes"] => Ok(Some(self.make(alloc)?)),
            ["capacity", count] => capacity_text(alloc, number(count)),
            _ => match &self.shapes {
                Some(shapes) => told(alloc, shapes, words),
                None => Ok(None),
            },
        }
    }
}
