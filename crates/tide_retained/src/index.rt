//! `Index`: items under labels, and the two that a search asks: cells under their groups, and tables under the keys of
//! their pairs. It knows no word.
ghost use Rattle.std.specs.Prelude.{◌≡◌, ◌↔◌, ◌≤◌, [], ◌∷◌, ◌++◌, length, Contains, IfOk, OnOk};
ghost use Rattle.std.specs.List.{flat_map};
ghost use Rattle.tide_retained.specs.Index.{entry, group_entries, key_entries, up_to, AreUnder, HasGroups, HasKeys};

use crate::contents::{Contents, Keyed};
use std::alloc::Global;
use std::marker::Model;
use tide_model::Memory;

/// An item under a label.
#[derive(Clone, Copy)]
pub(crate) struct Entry {
    pub label: u32,
    pub item: u32,
}

/// Items under labels, each label's side by side.
#[derive(Drop)]
pub(crate) struct Index {
    entries: Vec<Entry>,
}

impl Model for Index {
    ghost use Rattle.std.specs.Prelude.{List};
    ghost use Rattle.std.specs.List.Sorted.{IsNonDecreasingBy};
    ghost use Rattle.tide_retained.specs.declared.index.Entry.{Entry as IndexEntry};

    ghost Value = { List IndexEntry };

    ghost view = { λ i. i.entries.items };

    ghost invariant = { λ i. IsNonDecreasingBy (λ e. e.label) i.entries.items };
}

/// Puts an item under a label behind the others.
fn push_entry(entries: &mut Vec<Entry>, label: u32, item: u32) -> Result<(), Memory>
    ensures { OnOk result (entries.new.items ≡ entries.old.items ++ entry label item ∷ []) }
{
    if entries.push(Entry { label, item }).is_err() {
        return Err(Memory);
    }
    Ok(())
}

/// Puts a cell under its group behind the others, if it is in one.
fn push_group(entries: &mut Vec<Entry>, contents: &Contents, cell: u32) -> Result<(), Memory>
    ensures { OnOk result (entries.new.items ≡ entries.old.items ++ group_entries contents.now cell) }
{
    let group = contents.group(cell);
    if group == 0 {
        return Ok(());
    }
    push_entry(entries, group, cell)
}

/// Each cell under its group, if it is in one.
fn group_entries(alloc: Global, contents: &Contents) -> Result<Vec<Entry>, Memory>
    requires { length contents.now.cells.items ≤ 83886080 }
    ensures { IfOk result (λ entries. entries.items ≡
        flat_map (group_entries contents.now) (up_to (length contents.now.cells.items))) }
{
    let mut entries = Vec::new(alloc);
    for cell in 0..contents.cells.len() as u32 {
        push_group(&mut entries, contents, cell)?;
    }
    Ok(entries)
}

/// Puts a table behind the others under the key of each of its pairs.
fn push_keys(entries: &mut Vec<Entry>, table: u32, pairs: &[Keyed]) -> Result<(), Memory>
    ensures { OnOk result (entries.new.items ≡
        entries.old.items ++ flat_map (λ pair. entry pair.key table ∷ []) pairs.now) }
{
    for pair in pairs {
        push_entry(entries, pair.key, table)?;
    }
    Ok(())
}

/// Each table under the key of each of its pairs.
fn key_entries(alloc: Global, contents: &Contents) -> Result<Vec<Entry>, Memory>
    requires { length contents.now.cells.items ≤ 83886080 }
    ensures { IfOk result (λ entries. entries.items ≡
        flat_map (key_entries contents.now) (up_to (length contents.now.cells.items))) }
{
    let mut entries = Vec::new(alloc);
    for table in 0..contents.cells.len() as u32 {
        push_keys(&mut entries, table, contents.pairs(table))?;
    }
    Ok(entries)
}

impl Index {
    /// An index of these entries.
    pub fn new(mut entries: Vec<Entry>) -> Index
        ensures { (entry : Entry) → Contains result entry ↔ Contains entries.items entry }
    {
        entries.sort_unstable_by_key(|entry| entry.label);
        Index { entries }
    }

    /// The entries under a label.
    pub fn of(&self, label: u32) -> &[Entry]
        ensures { AreUnder self.now label result.now }
    {
        let entries = self.entries.as_slice();
        let from = entries.partition_point(|entry| entry.label < label);
        let to = entries.partition_point(|entry| entry.label <= label);
        &entries[from..to]
    }
}

/// The cells that are in groups, under these.
pub(crate) fn groups_of(alloc: Global, contents: &Contents) -> Result<Index, Memory>
    requires { length contents.now.cells.items ≤ 83886080 }
    ensures { IfOk result (λ groups. HasGroups contents.now groups) }
{
    let entries = group_entries(alloc, contents)?;
    Ok(Index::new(entries))
}

/// The tables, under the keys of their pairs.
pub(crate) fn keys_of(alloc: Global, contents: &Contents) -> Result<Index, Memory>
    requires { length contents.now.cells.items ≤ 83886080 }
    ensures { IfOk result (λ keys. HasKeys contents.now keys) }
{
    let entries = key_entries(alloc, contents)?;
    Ok(Index::new(entries))
}
