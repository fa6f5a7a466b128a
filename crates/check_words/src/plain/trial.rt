//! A plain store on trial, which is asked one line after another.
//!
//! The lines of a row: `path KEYS` and then `layout ..` make the empty store of a layout, whose shapes are those of the
//! path. Then
//!
//! - `mM OPERATION` is answered with the reply to mutator M, in the texts of a workload, with `k` and its number for a
//!   key;
//! - `collect` is answered with the cells that a full collection frees, and `collect eden` with those that an Eden one
//!   frees;
//! - `free CLASS`, `claims MUTATOR`, `live`, `taken` and `swept BLOCK` with what the store tells.

use crate::plain::guarded_store::GuardedStore;
use crate::plain::op::{numbered_keys, op_in};
use check_heap::{
    Answers, behind, layout_of, number, number_or_none, number_text, numbers, numbers_text,
    reply_text, small_number, text,
};
use std::alloc::{AllocError, Global};
use tide_text::Keys;

/// A store, once its layout is given, the path that is declared, if one is, and the keys that operations name.
#[derive(Drop)]
pub struct Trial {
    declared: Vec<Vec<u32>>,
    keys: Keys,
    store: Option<GuardedStore>,
}

/// The answer of what was done: no text, and `None` where it wasn't.
fn nothing_if(alloc: Global, is_done: bool) -> Result<Option<String>, AllocError> {
    if is_done {
        Ok(Some(text(alloc, "")?))
    } else {
        Ok(None)
    }
}

/// A number that the store tells of itself.
fn count(store: &GuardedStore, words: &[&str]) -> Option<u32> {
    match words {
        ["live"] => Some(store.live()),
        ["free", class] => store.free(small_number(class)?),
        ["claims", who] => store.claims(number(who)?),
        _ => None,
    }
}

/// Whether the last collection swept something of a block.
fn swept(store: &GuardedStore, block: &str) -> Option<bool> {
    store.swept(small_number(block)?)
}

/// What the store tells of itself, where the words ask for it.
fn told(alloc: Global, store: &GuardedStore, words: &[&str]) -> Result<Option<String>, AllocError> {
    match words {
        ["taken"] => Ok(Some(number_or_none(alloc, store.taken())?)),
        ["swept", block] => match swept(store, block) {
            Some(true) => Ok(Some(text(alloc, "yes")?)),
            Some(false) => Ok(Some(text(alloc, "no")?)),
            None => Ok(None),
        },
        _ => match count(store, words) {
            Some(count) => Ok(Some(number_text(alloc, u64::from(count))?)),
            None => Ok(None),
        },
    }
}

/// Makes a mutator's call, and gives its reply.
fn call(
    alloc: Global,
    store: &mut GuardedStore,
    keys: &Keys,
    who: u32,
    words: &[&str],
) -> Result<Option<String>, AllocError> {
    let Some(op) = op_in(alloc, store.layout(), keys, words)? else {
        return Ok(None);
    };
    match store.call(who, op) {
        Some(reply) => Ok(Some(reply_text(alloc, reply)?)),
        None => Ok(None),
    }
}

/// The mutator that a word `mM` names.
fn mutator_of(word: &str) -> Option<u32> {
    number(behind("m", word)?)
}

/// Collects, and gives the freed cells.
fn collect(
    alloc: Global,
    store: &mut GuardedStore,
    full: bool,
) -> Result<Option<String>, AllocError> {
    let freed = store.collect(alloc, full)?;
    Ok(Some(numbers_text(alloc, freed.as_slice())?))
}

/// Does what the words say to a store.
fn ask(
    alloc: Global,
    store: &mut GuardedStore,
    keys: &Keys,
    words: &[&str],
) -> Result<Option<String>, AllocError> {
    match words {
        ["collect"] => collect(alloc, store, true),
        ["collect", "eden"] => collect(alloc, store, false),
        [mutator, op @ ..] => match mutator_of(mutator) {
            Some(who) => call(alloc, store, keys, who, op),
            None => told(alloc, store, words),
        },
        [] => Ok(None),
    }
}

impl Trial {
    /// Declares the path, and answers whether it is one.
    fn declare(&mut self, alloc: Global, keys: &[&str]) -> Result<bool, AllocError> {
        let Some(path) = numbers(alloc, keys)? else {
            return Ok(false);
        };
        let mut declared = Vec::new(alloc);
        declared.push(path)?;
        self.declared = declared;
        Ok(true)
    }

    /// Makes the empty store of a layout, and answers whether it is one.
    fn open(&mut self, alloc: Global, words: &[&str]) -> Result<bool, AllocError> {
        let Some(layout) = layout_of(words) else {
            return Ok(false);
        };
        let store = GuardedStore::new(alloc, layout, self.declared.as_slice())?;
        self.store = Some(store);
        Ok(true)
    }
}

impl Answers for Trial {
    fn begin(alloc: Global) -> Result<Self, AllocError> {
        Ok(Trial {
            declared: Vec::new(alloc),
            keys: numbered_keys(alloc)?,
            store: None,
        })
    }

    fn answer(&mut self, alloc: Global, words: &[&str]) -> Result<Option<String>, AllocError> {
        let is_done = match words {
            ["path", keys @ ..] => self.declare(alloc, keys)?,
            ["layout", layout @ ..] => self.open(alloc, layout)?,
            _ => {
                return match &mut self.store {
                    Some(store) => ask(alloc, store, &self.keys, words),
                    None => Ok(None),
                };
            }
        };
        nothing_if(alloc, is_done)
    }
}
