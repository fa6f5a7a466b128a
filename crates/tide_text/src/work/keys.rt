//! The names of property keys. What a path of them is stands elsewhere.
ghost use Rattle.std.specs.Prelude.{◌≡◌, ◌<◌, length, position};
ghost use Rattle.std.specs.List.{list_all};
ghost use Rattle.std.specs.Str.{bytes_eq};
ghost use Rattle.tide_text.specs.work.Keys.{is_key, is_key_byte};

use indexmap::IndexSet;
use std::alloc::{AllocError, Global};
use std::marker::Model;

/// How many property keys a workload may have: 64 paths of 64 keys.
pub const MAX_KEYS: usize = 4_096;

/// How many bytes the name of a property key may have.
pub const MAX_KEY_BYTES: usize = 16;

/// Whether a byte may stand in a key: a letter from a to z, a digit or `_`.
fn is_key_byte(byte: u8) -> bool
    ensures { result ≡ is_key_byte byte }
{
    byte.is_ascii_lowercase() || byte.is_ascii_digit() || byte == b'_'
}

fn has_key_bytes(word: &[u8]) -> bool
    ensures { result ≡ list_all is_key_byte word.now }
{
    word.iter().all(|byte| is_key_byte(*byte))
}

/// Whether a word is a key: 1 to 16 lower-case letters, digits and `_`, of which the first is a letter.
#[tactic(auto, unfolding(crate::specs::work::Keys::is_key))]
pub fn is_key(word: &[u8]) -> bool
    ensures { result ≡ is_key word.now }
{
    !word.is_empty()
        && word.len() <= MAX_KEY_BYTES
        && word[0].is_ascii_lowercase()
        && has_key_bytes(word)
}

/// The names of property keys by number. Contracts see the bytes of each.
#[derive(Drop)]
pub struct Keys {
    names: IndexSet<Vec<u8>>,
}

impl Model for Keys {
    ghost use Rattle.std.specs.Prelude.{ℕ, List, map};
    ghost use Rattle.tide_text.specs.work.Work.{AreKeys};

    ghost Value = { List (List ℕ) };

    ghost view = { λ keys. map (λ name. name.items) keys.names.keys };

    ghost invariant = { λ keys. AreKeys (map (λ name. name.items) keys.names.keys) };
}

impl Keys {
    ghost use Rattle.std.specs.Prelude.{[], Some, true, slice_get, OnOk};
    ghost use Rattle.tide_text.specs.work.Keys.{add_name, is_named, key_number};
    ghost use Rattle.tide_text.specs.work.Work.{AreKeys, IsBetween};

    /// No key.
    pub fn new(alloc: Global) -> Self
        ensures { result ≡ [] }
    {
        Keys {
            names: IndexSet::new(alloc),
        }
    }

    /// How many keys there are.
    pub fn len(&self) -> u32
        ensures count { result ≡ length self.now }
        ensures keys { AreKeys self.now }
    {
        self.names.len() as u32
    }

    /// Whether a key has this name.
    fn has(&self, name: &[u8]) -> bool
        ensures { result ≡ is_named self.now name.now }
    {
        self.names.contains(name)
    }

    /// The number of the key with this name.
    pub fn number(&self, name: &[u8]) -> Option<u32>
        ensures { result ≡ position (λ known. bytes_eq known name.now) self.now }
    {
        let key = self.names.get_index_of(name)?;
        Some(key as u32)
    }

    /// The place of a name among the names, which is how many there are where it is none of them.
    pub fn place(&self, name: &[u8]) -> u32
        ensures { result ≡ key_number self.now name.now }
    {
        self.number(name).unwrap_or(self.len())
    }

    /// The name of a key.
    pub fn name(&self, key: u32) -> &[u8]
        requires { key < length self.now }
        ensures name { slice_get self.now key ≡ Some result.now }
        ensures key { is_key result.now ≡ true }
        ensures sized { IsBetween 1 MAX_KEY_BYTES (length result.now) }
    {
        self.names[key as usize].as_slice()
    }

    /// Puts a name behind the others, unless it is there.
    pub fn add(&mut self, alloc: Global, name: &[u8]) -> Result<(), AllocError>
        requires room { length self.old < MAX_KEYS }
        requires key { is_key name.now ≡ true }
        ensures { OnOk result (self.new ≡ add_name self.old name.now) }
    {
        if !self.has(name) {
            self.names.insert(name.to_vec(alloc)?)?;
        }
        Ok(())
    }
}
