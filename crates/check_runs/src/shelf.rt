//! The workloads that are at hand, by their names. The summary of a generated workload is one too, without a document.

use std::alloc::{AllocError, Global};

/// A workload's document, the text that its run prints, and the name of both.
#[derive(Drop)]
pub struct Stored {
    name: String,
    document: String,
    printed: String,
}

/// The workloads that rows and lists name.
#[derive(Drop)]
pub struct Shelf {
    all: Vec<Stored>,
}

impl Stored {
    /// What there is to read.
    pub fn document(&self) -> &[u8] {
        self.document.as_bytes()
    }

    /// What is to be printed.
    pub fn printed(&self) -> &[u8] {
        self.printed.as_bytes()
    }
}

impl Shelf {
    /// No workload.
    pub fn new(alloc: Global) -> Shelf {
        Shelf {
            all: Vec::new(alloc),
        }
    }

    /// One more.
    pub fn add(
        &mut self,
        name: String,
        document: String,
        printed: String,
    ) -> Result<(), AllocError> {
        self.all.push(Stored {
            name,
            document,
            printed,
        })?;
        Ok(())
    }

    /// The workload of a name.
    pub fn find(&self, name: &str) -> Option<&Stored> {
        for stored in self.all.as_slice() {
            if stored.name.as_str() == name {
                return Some(stored);
            }
        }
        None
    }
}
