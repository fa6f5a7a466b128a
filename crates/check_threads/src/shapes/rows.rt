//! Rows of tables that two growers grow.
//!
//! A row begins with `keys COUNT`, which makes a table, or `keys COUNT last NUMBER`, whose shapes have numbers to that
//! one. Then
//!
//! - `grow WHO SHAPE KEY`: grower 1 or 2 grows a shape on a thread of its own, which is answered with the shape that it
//!   got, or `present`, `deep`, `many`, `memory`, or `unasked` where it doesn't know the shape or there is no such key;
//! - `chain WHO LENGTH`: it grows the empty shape by the keys 0, 1 and so on, which is answered with the last shape;
//! - `keys of WHO SHAPE`, `count of WHO SHAPE`, `key of WHO SHAPE PLACE`: what it knows of a shape, or `unknown`;
//! - `settle`: from here on the settled table is asked, by `next SHAPE KEY`, `place SHAPE KEY` and `key SHAPE PLACE`.

use crate::shapes::table::{Came, Growing, Who, key_at, next_of, place_of};
use check_heap::{
    number, number_or_none, number_text, numbers_text, parts_of, tell_answer, text, words_of,
};
use std::alloc::{AllocError, Global};
use std::marker::Sync;
use std::mem::replace;
use std::sync::Wait;
use std::thread::Threads;
use tide_grow_shape::{GrowRefused, Settled};

/// The table of a row, as it is by now.
#[derive(Drop)]
enum State {
    Nothing,
    Growing(Growing),
    Settled(Settled),
}

/// What a line asks of a grower.
#[derive(Clone, Copy)]
enum Ask {
    Grow { shape: u32, key: u32 },
    Chain { length: u32 },
    Keys { shape: u32 },
    Count { shape: u32 },
    Key { shape: u32, place: u32 },
}

/// Which grower a word names.
fn who_of(word: &str) -> Option<Who> {
    match word {
        "1" => Some(Who::First),
        "2" => Some(Who::Second),
        _ => None,
    }
}

/// Whom the words of a line ask, and what. `None` where they say nothing that is known.
fn ask_of(words: &[&str]) -> Option<(Who, Ask)> {
    let (who, ask) = match words {
        ["grow", who, shape, key] => {
            let (shape, key) = (number(shape)?, number(key)?);
            (who, Ask::Grow { shape, key })
        }
        ["chain", who, length] => {
            let length = number(length)?;
            (who, Ask::Chain { length })
        }
        ["keys", "of", who, shape] => {
            let shape = number(shape)?;
            (who, Ask::Keys { shape })
        }
        ["count", "of", who, shape] => {
            let shape = number(shape)?;
            (who, Ask::Count { shape })
        }
        ["key", "of", who, shape, place] => {
            let (shape, place) = (number(shape)?, number(place)?);
            (who, Ask::Key { shape, place })
        }
        _ => return None,
    };
    Some((who_of(who)?, ask))
}

/// What a grower's call came to.
fn came_text(alloc: Global, came: Came) -> Result<String, AllocError> {
    match came {
        Came::Grown(shape) => number_text(alloc, shape as u64),
        Came::Refused(GrowRefused::Present) => text(alloc, "present"),
        Came::Refused(GrowRefused::Deep) => text(alloc, "deep"),
        Came::Refused(GrowRefused::Many { index: _ }) => text(alloc, "many"),
        Came::Refused(GrowRefused::Memory) => text(alloc, "memory"),
        Came::Unasked => text(alloc, "unasked"),
    }
}

/// The keys of a shape, and `unknown` where it isn't known.
fn keys_text(alloc: Global, keys: Option<&[u32]>) -> Result<String, AllocError> {
    match keys {
        Some(keys) => numbers_text(alloc, keys),
        None => text(alloc, "unknown"),
    }
}

/// What a grower knows, and `unknown` where it doesn't.
fn known_text(alloc: Global, known: Option<u32>) -> Result<String, AllocError> {
    match known {
        Some(number) => number_text(alloc, number as u64),
        None => text(alloc, "unknown"),
    }
}

/// Grows the empty shape by so many keys, as long as that isn't refused.
fn chain<R: Threads + Wait + Sync>(
    rt: &R,
    alloc: Global,
    growing: &mut Growing,
    who: Who,
    length: u32,
) -> Came {
    let mut shape = 0;
    for key in 0..length {
        match growing.grow(rt, alloc, who, shape, key) {
            Came::Grown(child) => shape = child,
            came => return came,
        }
    }
    Came::Grown(shape)
}

/// Asks a grower, and answers what it answered.
fn ask_grower<R: Threads + Wait + Sync>(
    rt: &R,
    alloc: Global,
    growing: &mut Growing,
    who: Who,
    ask: Ask,
) -> Result<String, AllocError> {
    match ask {
        Ask::Grow { shape, key } => came_text(alloc, growing.grow(rt, alloc, who, shape, key)),
        Ask::Chain { length } => came_text(alloc, chain(rt, alloc, growing, who, length)),
        Ask::Keys { shape } => keys_text(alloc, growing.keys(who, shape)),
        Ask::Count { shape } => known_text(alloc, growing.count(who, shape)),
        Ask::Key { shape, place } => known_text(alloc, growing.key_at(who, shape, place)),
    }
}

/// What is asked of a settled table.
fn ask_settled(
    alloc: Global,
    settled: &Settled,
    words: &[&str],
) -> Result<Option<String>, AllocError> {
    let [what, shape, other] = words else {
        return Ok(None);
    };
    let (Some(shape), Some(other)) = (number(shape), number(other)) else {
        return Ok(None);
    };
    let answer = match *what {
        "next" => next_of(settled, shape, other),
        "place" => place_of(settled, shape, other),
        "key" => key_at(settled, shape, other),
        _ => return Ok(None),
    };
    Ok(Some(number_or_none(alloc, answer)?))
}

impl State {
    /// A new table of so many keys, whose shapes have numbers to `last`. It is answered with nothing.
    fn begin(
        &mut self,
        alloc: Global,
        keys: Option<u32>,
        last: Option<u32>,
    ) -> Result<Option<String>, AllocError> {
        let (Some(keys), Some(last)) = (keys, last) else {
            return Ok(None);
        };
        let Ok(growing) = Growing::new(alloc, keys, last) else {
            return Err(AllocError);
        };
        *self = State::Growing(growing);
        Ok(Some(String::new(alloc)))
    }

    /// From here on the settled table is asked. It is answered with nothing, and not at all where there were no
    /// growers.
    fn settle(&mut self, alloc: Global) -> Result<Option<String>, AllocError> {
        let State::Growing(growing) = replace(self, State::Nothing) else {
            return Ok(None);
        };
        let Ok(settled) = growing.settle(alloc) else {
            return Err(AllocError);
        };
        *self = State::Settled(settled);
        Ok(Some(String::new(alloc)))
    }

    /// Asks the table what the words of a line say, and answers it. `None` where they say nothing that is known.
    fn ask<R: Threads + Wait + Sync>(
        &mut self,
        rt: &R,
        alloc: Global,
        words: &[&str],
    ) -> Result<Option<String>, AllocError> {
        match self {
            State::Nothing => Ok(None),
            State::Growing(growing) => match ask_of(words) {
                Some((who, ask)) => Ok(Some(ask_grower(rt, alloc, growing, who, ask)?)),
                None => Ok(None),
            },
            State::Settled(settled) => ask_settled(alloc, settled, words),
        }
    }
}

/// Does what the words of a line say, and answers it. `None` where they say nothing that is known.
fn answer<R: Threads + Wait + Sync>(
    rt: &R,
    alloc: Global,
    state: &mut State,
    words: &[&str],
) -> Result<Option<String>, AllocError> {
    match words {
        ["keys", count] => state.begin(alloc, number(count), Some(u32::MAX)),
        ["keys", count, "last", last] => state.begin(alloc, number(count), number(last)),
        ["settle"] => state.settle(alloc),
        _ => state.ask(rt, alloc, words),
    }
}

/// Does a line, and tells what was answered where it is other than expected.
fn is_line_so<R: Threads + Wait + Sync>(
    rt: &R,
    alloc: Global,
    findings: &mut String,
    state: &mut State,
    row: &str,
    line: &str,
) -> Result<bool, AllocError> {
    let (said, _) = parts_of(line);
    let words = words_of(alloc, said)?;
    let answered = answer(rt, alloc, state, words.as_slice())?;
    tell_answer(findings, row, line, answered.as_deref())
}

/// Does the lines of a row, up to the first that ends otherwise than expected.
fn is_row_so<R: Threads + Wait + Sync>(
    rt: &R,
    alloc: Global,
    findings: &mut String,
    row: &str,
) -> Result<bool, AllocError> {
    let (name, lines) = row.split_once("\n").unwrap_or((row, ""));
    let mut state = State::Nothing;
    for line in lines.lines() {
        if !line.is_empty() && !is_line_so(rt, alloc, findings, &mut state, name, line)? {
            return Ok(false);
        }
    }
    Ok(true)
}

/// Does each row of a text, and tells the lines that end otherwise than expected. A row is a line `=== NAME` and the
/// lines below it. A text without rows is none.
pub fn check_rows_of_shapes<R: Threads + Wait + Sync>(
    rt: &R,
    alloc: Global,
    findings: &mut String,
    text: &str,
) -> Result<bool, AllocError> {
    let Some((_, rows)) = text.split_once("=== ") else {
        return Ok(false);
    };
    let mut all = true;
    for row in rows.split("=== ") {
        all = is_row_so(rt, alloc, findings, row)? && all;
    }
    Ok(all)
}
