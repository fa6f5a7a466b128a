//! The words of the command line.

use std::alloc::{AllocError, Global};
use std::env::Args;

/// What the words ask for: scripts, each a file, helpers beside them, and a heap.
#[derive(Drop)]
pub struct Words {
    pub scripts: Vec<String>,
    pub helpers: u8,
    /// How many blocks of 64 pairs the heap has. Of other cells it has fewer.
    pub blocks: u32,
    /// How many newly born cells begin a cycle.
    pub trigger: u32,
    /// How many calls each script has in a part.
    pub calls: u32,
}

impl Words {
    /// How many scripts there are: the one on standard input, where the words name none.
    pub fn count(&self) -> usize {
        self.scripts.len().max(1)
    }

    /// The name of a script, by number.
    pub fn name(&self, number: usize) -> &str {
        match self.scripts.get(number) {
            Some(name) => name.as_str(),
            None => "script",
        }
    }

    /// What an option asks for. Says whether it is one.
    fn set(&mut self, word: &str) -> bool {
        let Some((name, value)) = word.split_once('=') else {
            return false;
        };
        let Ok(number) = value.parse::<u32>() else {
            return false;
        };
        match name {
            "--helpers" => self.helpers = number.min(255) as u8,
            "--blocks" => self.blocks = number,
            "--trigger" => self.trigger = number,
            "--calls" => self.calls = number,
            _ => return false,
        }
        true
    }
}

/// What the words of the command line ask for, of which the first is the program's name. `None` where one isn't known.
pub fn words_of(alloc: Global, args: Args) -> Result<Option<Words>, AllocError> {
    let mut words = Words {
        scripts: Vec::new(alloc),
        helpers: 1,
        blocks: 256,
        trigger: 2_000,
        calls: 4_000,
    };
    for word in args.skip(1) {
        if !word.as_str().starts_with("--") {
            words.scripts.push(word)?;
        } else if !words.set(word.as_str()) {
            return Ok(None);
        }
    }
    Ok(Some(words))
}
