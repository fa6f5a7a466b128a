//! Workloads that are drawn: 16 mutators, each of which does some of the meetings of a file. It knows no store.
//!
//! The words of a file stand for pieces of a workload's document: `_` for a space, `|` for what parts two operations,
//! `A`, `B` and `C` for registers, `K` for a class of cells, `S` and `W` for a strong and a weak handle.
ghost use Rattle.std.specs.Prelude.{◌<◌, ◌≤◌, length};

use check_heap::{Draw, words_of};
use std::alloc::{AllocError, Global};

/// How many mutators a workload has.
const MUTATORS: u32 = 16;

/// The class of which a workload's cells are that are no tables, as a digit, and what the other letters stand for.
#[derive(Clone, Copy)]
struct Letters {
    class: u8,
    one: u8,
    other: u8,
    third: u8,
    strong: u8,
    weak: u8,
}

/// The digit of a number below the bound.
fn digit(draw: &mut Draw, bound: u32) -> u8
    requires some { 0 < bound }
    requires digits { bound ≤ 10 }
{
    b'0' + draw.below(bound) as u8
}

impl Letters {
    fn drawn(draw: &mut Draw, class: u8) -> Self {
        Letters {
            class,
            one: digit(draw, 3),
            other: digit(draw, 3),
            third: digit(draw, 3),
            strong: digit(draw, 3),
            weak: digit(draw, 2),
        }
    }

    /// What stands in a document for a byte of a word.
    fn told(self, byte: u8) -> u8 {
        match byte {
            b'_' => b' ',
            b'A' => self.one,
            b'B' => self.other,
            b'C' => self.third,
            b'K' => self.class,
            b'S' => self.strong,
            b'W' => self.weak,
            _ => byte,
        }
    }

    /// Puts what a word stands for into a document.
    fn push(self, document: &mut Vec<u8>, word: &str) -> Result<(), AllocError> {
        for byte in word.as_bytes() {
            if *byte == b'|' {
                document.extend_from_slice(b"\", \"")?;
            } else {
                document.push(self.told(*byte))?;
            }
        }
        Ok(())
    }
}

/// One of some words.
fn one_of<'a>(draw: &mut Draw, words: &[&'a str]) -> &'a str
    requires { 0 < length words.now }
{
    words[draw.below(1_000_000) as usize % words.len()]
}

/// The first of some words, and each other one or not.
fn some_of<'a>(
    alloc: Global,
    draw: &mut Draw,
    words: &[&'a str],
) -> Result<Vec<&'a str>, AllocError> {
    let mut some = Vec::new(alloc);
    for word in words {
        if some.is_empty() || draw.below(2) == 0 {
            some.push(*word)?;
        }
    }
    Ok(some)
}

/// Puts a line for each line of a file into a document: one of its words.
fn push_settings(
    alloc: Global,
    document: &mut Vec<u8>,
    draw: &mut Draw,
    file: &str,
) -> Result<(), AllocError> {
    for line in file.lines() {
        let words = words_of(alloc, line)?;
        if !words.is_empty() {
            let letters = Letters::drawn(draw, b'0');
            letters.push(document, one_of(draw, words.as_slice()))?;
            document.push(b'\n')?;
        }
    }
    Ok(())
}

/// Puts a mutator into a document, with one to eight of some meetings.
fn push_mutator(
    document: &mut Vec<u8>,
    draw: &mut Draw,
    class: u8,
    meetings: &[&str],
) -> Result<(), AllocError>
    requires { 0 < length meetings.now }
{
    document.extend_from_slice(b"[[mutator]]\nops = [\"unclaim")?;
    let count = 1 + draw.below(8);
    for _ in 0..count {
        let letters = Letters::drawn(draw, class);
        letters.push(document, "|")?;
        letters.push(document, one_of(draw, meetings))?;
    }
    document.extend_from_slice(b"\"]\n")
}

/// The document of the workload that is drawn for a seed: one word of each line of `settings`, and mutators that do
/// some of the words of `meetings`.
pub fn drawn(
    alloc: Global,
    settings: &str,
    meetings: &str,
    seed: u64,
) -> Result<Vec<u8>, AllocError> {
    let mut draw = Draw::new(seed);
    let mut document = Vec::new(alloc);
    push_settings(alloc, &mut document, &mut draw, settings)?;
    let meetings = words_of(alloc, meetings)?;
    let meetings = some_of(alloc, &mut draw, meetings.as_slice())?;
    if meetings.is_empty() {
        return Ok(document);
    }
    let class = digit(&mut draw, 4);
    for _ in 0..MUTATORS {
        push_mutator(&mut document, &mut draw, class, meetings.as_slice())?;
    }
    Ok(document)
}
