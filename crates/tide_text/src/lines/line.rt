//! A line that is composed on the stack, piece by piece. It knows nothing of where it is written.
ghost use Rattle.std.specs.Prelude.{◌≡◌, ◌+◌, ◌<◌, ◌≤◌, [], ◌++◌, length, codes};
ghost use Rattle.tide_text.specs.lines.Line.{cell_text};
ghost use Rattle.tide_text.specs.lines.OpText.{key_operand, register_operand};

use crate::work::Keys;
use arrayvec::ArrayVec;
use itoa::{Buffer, Integer};
use std::marker::Model;

/// How many bytes a line of a run or of a fault has at most: a fault has up to 60 behind `riptide: `, and an operation
/// up to 40 before a reply of up to 24. The cells that a cycle freed are lines of their own here.
pub const LONGEST_LINE: usize = 96;

/// A bound on the bytes of a cell's id, and on those of a `u32`.
pub const LONGEST_ID: usize = 11;

/// A bound on the bytes of a register after a space.
pub const LONGEST_REGISTER: usize = 5;

/// A bound on the bytes of a property key after a space.
pub const LONGEST_KEY: usize = 17;

/// The bytes of a line, composed before they are written. Who composes it says how many there is room for, as all of
/// the room is set to 0 where a line is begun: `LONGEST_LINE` in a run, and over two thousand where the values of all
/// the properties that a cell may have are to stand in one line.
///
/// Each piece is put behind those before it, and the line is handed on for the next one.
#[derive(Drop)]
pub struct Line<const ROOM: usize> {
    buffer: ArrayVec<u8, ROOM>,
}

impl<const ROOM: usize> Model for Line<ROOM> {
    ghost use Rattle.std.specs.Prelude.{ℕ, List};

    ghost Value = { List ℕ };

    ghost view = { λ s. s.buffer.items };
}

impl<const ROOM: usize> Line<ROOM> {
    /// An empty line.
    pub fn new() -> Self
        ensures { result ≡ [] }
    {
        Line {
            buffer: ArrayVec::new(),
        }
    }

    /// Bytes as they are.
    pub fn bytes(&mut self, bytes: &[u8]) -> &mut Self
        requires { length self.old + length bytes.now ≤ ROOM }
        ensures same_reference { result.ghost_name ≡ self.entry.ghost_name }
        ensures value { result.now ≡ self.old ++ bytes.now }
        ensures grown { length result.now ≡ length self.old + length bytes.now }
    {
        match self.buffer.try_extend_from_slice(bytes) {
            Ok(()) => self,
            Err(_) => unreachable!(),
        }
    }

    /// A text as it is.
    pub fn text(&mut self, text: &str) -> &mut Self
        requires { length self.old + length text.now ≤ ROOM }
        ensures same_reference { result.ghost_name ≡ self.entry.ghost_name }
        ensures value { result.now ≡ self.old ++ text.now }
        ensures grown { length result.now ≡ length self.old + length text.now }
    {
        self.bytes(text.as_bytes())
    }

    /// A number in decimal, with no leading zero.
    pub fn number<N: Integer>(&mut self, n: N) -> &mut Self
        requires { length self.old + N.MAX_STR_LEN ≤ ROOM }
        ensures same_reference { result.ghost_name ≡ self.entry.ghost_name }
        ensures value { result.now ≡ self.old ++ N.text n }
        ensures grown { length result.now ≤ length self.old + N.MAX_STR_LEN }
    {
        let mut digits = Buffer::new();
        self.text(digits.format(n))
    }

    /// A cell's id.
    pub fn cell(&mut self, id: u32) -> &mut Self
        requires { length self.old + LONGEST_ID ≤ ROOM }
        ensures same_reference { result.ghost_name ≡ self.entry.ghost_name }
        ensures value { result.now ≡ self.old ++ cell_text id }
        ensures grown { length result.now ≤ length self.old + LONGEST_ID }
    {
        self.text("#").number(id)
    }

    /// A register after a space.
    pub fn register(&mut self, register: u8) -> &mut Self
        requires { length self.old + LONGEST_REGISTER ≤ ROOM }
        ensures same_reference { result.ghost_name ≡ self.entry.ghost_name }
        ensures value { result.now ≡ self.old ++ register_operand register }
        ensures grown { length result.now ≤ length self.old + LONGEST_REGISTER }
    {
        self.text(" r").number(register)
    }

    /// Two registers, each after a space.
    pub fn registers(&mut self, first: u8, second: u8) -> &mut Self
        requires { length self.old + LONGEST_REGISTER + LONGEST_REGISTER ≤ ROOM }
        ensures same_reference { result.ghost_name ≡ self.entry.ghost_name }
        ensures value { result.now ≡ self.old ++ (register_operand first ++ register_operand second) }
        ensures grown { length result.now ≤ length self.old + LONGEST_REGISTER + LONGEST_REGISTER }
    {
        self.register(first).register(second)
    }

    /// A register and a property key, each after a space.
    pub fn property(&mut self, keys: &Keys, register: u8, key: u32) -> &mut Self
        requires key { key < length keys.now }
        requires room { length self.old + LONGEST_REGISTER + LONGEST_KEY ≤ ROOM }
        ensures same_reference { result.ghost_name ≡ self.entry.ghost_name }
        ensures value { result.now ≡ self.old ++ (register_operand register ++ key_operand keys.now key) }
        ensures grown { length result.now ≤ length self.old + LONGEST_REGISTER + LONGEST_KEY }
    {
        self.register(register).key(keys, key)
    }

    /// The name of a property key after a space.
    pub fn key(&mut self, keys: &Keys, key: u32) -> &mut Self
        requires key { key < length keys.now }
        requires room { length self.old + LONGEST_KEY ≤ ROOM }
        ensures same_reference { result.ghost_name ≡ self.entry.ghost_name }
        ensures value { result.now ≡ self.old ++ key_operand keys.now key }
        ensures grown { length result.now ≤ length self.old + LONGEST_KEY }
    {
        self.text(" ").bytes(keys.name(key))
    }

    /// A number after a space.
    pub fn operand<N: Integer>(&mut self, n: N) -> &mut Self
        requires { length self.old + 1 + N.MAX_STR_LEN ≤ ROOM }
        ensures same_reference { result.ghost_name ≡ self.entry.ghost_name }
        ensures value { result.now ≡ self.old ++ codes " " ++ N.text n }
        ensures grown { length result.now ≤ length self.old + 1 + N.MAX_STR_LEN }
    {
        self.text(" ").number(n)
    }

    /// What was composed.
    pub fn as_bytes(&self) -> &[u8]
        ensures { result.now ≡ self.now }
    {
        self.buffer.as_slice()
    }
}
