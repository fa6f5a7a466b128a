//! How many cells a search knows: those of the heap, and each that is the key of a pair. It knows no word.
ghost use Rattle.std.specs.Prelude.{◌≡◌, ◌⊎◌, ◌+◌, ◌<◌, ◌≤◌, length};
ghost use Rattle.tide_retained.specs.Holding.{AreKeysBelow};
ghost use Rattle.tide_retained.specs.Searching.{HasKeysBelow};

use crate::contents::{Contents, Keyed};

/// How many cells a search knows at least, so that of a small heap it knows those beyond it that its words may name.
const LEAST: usize = 20_480;

/// The number behind a cell's, and `least` where that is larger.
fn behind(cell: u32, least: usize) -> usize
    ensures cell { cell < result }
    ensures least { least ≤ result }
    ensures one { (result ≡ least) ⊎ (result ≡ cell + 1) }
{
    least.max(cell as usize + 1)
}

/// The number behind each key of these pairs, and `least` where that is larger.
fn behind_keys(pairs: &[Keyed], least: usize) -> usize
    requires few { AreKeysBelow 83886080 pairs.now }
    requires most { least ≤ 83886080 }
    ensures keys { AreKeysBelow result pairs.now }
    ensures least { least ≤ result }
    ensures most { result ≤ 83886080 }
{
    let mut known = least;
    for pair in pairs {
        known = behind(pair.key, known);
    }
    known
}

/// How many cells a search knows.
pub(crate) fn cells_known(contents: &Contents) -> usize
    requires cells { length contents.now.cells.items ≤ 83886080 }
    requires few { HasKeysBelow 83886080 contents.now }
    ensures least { 20480 ≤ result }
    ensures cells { length contents.now.cells.items ≤ result }
    ensures keys { HasKeysBelow result contents.now }
    ensures most { result ≤ 83886080 }
{
    let mut known = LEAST;
    for cell in 0..contents.cells.len() as u32 {
        known = behind_keys(contents.pairs(cell), behind(cell, known));
    }
    known
}
