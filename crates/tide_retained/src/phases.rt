//! The two phases of the search: which cells are retained at all, and then how far each of them is. They know no word.
ghost use Rattle.std.specs.Prelude.{◌≡◌, ◌≤◌, false, length, replicate, IfOk};
ghost use Rattle.tide_retained.specs.Index.{HasGroups, HasKeys};
ghost use Rattle.tide_retained.specs.Searching.{AreRetained, FindsAll, HasKeysBelow};

use crate::contents::Contents;
use crate::index::Index;
use crate::search::{Found, Search};
use std::alloc::Global;
use tide_model::Memory;

/// A flag for each of so many cells, none of them set.
fn no_flags(alloc: Global, cells: usize) -> Result<Vec<bool>, Memory>
    ensures { IfOk result (λ flags. flags.items ≡ replicate cells false) }
{
    let Ok(flags) = vec![in alloc; false; cells] else {
        return Err(Memory);
    };
    Ok(flags)
}

/// Which of so many cells are retained, all that the contents are of and all keys of pairs. Each that is found is
/// visited once: as a cell that holds others, and as the key of pairs.
pub(crate) fn retained(
    alloc: Global,
    contents: &Contents,
    groups: &Index,
    keys: &Index,
    cells: usize,
) -> Result<Vec<bool>, Memory>
    requires most { cells ≤ 83886080 }
    requires cells { length contents.now.cells.items ≤ cells }
    requires few { HasKeysBelow cells contents.now }
    requires groups { HasGroups contents.now groups.now }
    requires keys { HasKeys contents.now keys.now }
    ensures sized { IfOk result (λ flags. length flags.items ≡ cells) }
    ensures retained { IfOk result (λ flags. AreRetained contents.now flags.items) }
{
    let none = no_flags(alloc, cells)?;
    let mut search = Search::new(alloc, none)?;
    search.enter_roots(contents.roots.as_slice())?;
    let mut at = 0;
    while at < search.len() {
        let cell = search.cell_at(at);
        search.visit(contents, groups, cell)?;
        search.visit_key(contents, keys, cell)?;
        at += 1;
    }
    Ok(search.into_retained())
}

/// How each cell that is retained is found by the fewest steps, and the order of their distances.
pub(crate) fn found(
    alloc: Global,
    contents: &Contents,
    groups: &Index,
    retained: Vec<bool>,
) -> Result<(Vec<Option<Found>>, Vec<u32>), Memory>
    requires most { length retained.items ≤ 83886080 }
    requires cells { length contents.now.cells.items ≤ length retained.items }
    requires few { HasKeysBelow (length retained.items) contents.now }
    requires groups { HasGroups contents.now groups.now }
    requires retained { AreRetained contents.now retained.items }
    ensures sized { IfOk result (λ found. length found.0.items ≡ length retained.items) }
    ensures found { IfOk result (λ found. FindsAll contents.now found.0.items) }
{
    let mut search = Search::new(alloc, retained)?;
    search.enter_roots(contents.roots.as_slice())?;
    let mut at = 0;
    while at < search.len() {
        let cell = search.cell_at(at);
        search.visit(contents, groups, cell)?;
        at += 1;
    }
    Ok(search.into_found())
}
