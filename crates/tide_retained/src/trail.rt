//! The way to a cell that was found, from the root down: which cell stands where on it is found without memory, by
//! skips that lead far up. It knows nothing of what cells hold.
ghost use Rattle.std.specs.Prelude.{◌≡◌, ◌-◌, ◌<◌, ◌≤◌, length, slice_index_or, IfOk};
ghost use Rattle.tide_retained.specs.Searching.{found_in};
ghost use Rattle.tide_retained.specs.Trail.{above, parent_in, distance_of, AreOnWay, AreSkips, AreUpFrom, IsAbove, IsWay};

use crate::search::Found;
use std::alloc::Global;
use tide_model::Memory;

/// How a cell was found, if it was.
pub(crate) fn place_of(found: &[Option<Found>], cell: u32) -> Option<Found>
    ensures { result ≡ found_in found.now cell }
{
    match found.get(cell as usize) {
        Some(place) => *place,
        None => None,
    }
}

/// How many steps there are to a cell, and 0 where it wasn't found.
pub(crate) fn distance_of(found: &[Option<Found>], cell: u32) -> u32
    ensures { result ≡ distance_of found.now cell }
{
    match place_of(found, cell) {
        Some(place) => place.distance,
        None => 0,
    }
}

/// The cell before this one, and the cell itself where a root holds it or it wasn't found.
fn parent_of(found: &[Option<Found>], cell: u32) -> u32
    ensures { result ≡ parent_in found.now cell }
{
    match place_of(found, cell) {
        Some(place) => place.parent,
        None => cell,
    }
}

/// The cell to which a skip leads, and the cell itself where there is none.
fn skip_of(skips: &[u32], cell: u32) -> u32
    ensures { result ≡ slice_index_or skips.now cell cell }
{
    match skips.get(cell as usize) {
        Some(skip) => *skip,
        None => cell,
    }
}

/// A cell that is far above this one on the way to it: as far as its parent's skip and the skip of that together, where
/// both are as long, and else its parent.
fn skip_for(found: &[Option<Found>], skips: &[u32], cell: u32) -> u32
    requires way { IsWay found.now }
    requires skips { AreSkips found.now skips.now }
    requires found { 0 < distance_of found.now cell }
    ensures { IsAbove found.now cell result }
{
    let parent = parent_of(found, cell);
    let skip = skip_of(skips, parent);
    let farther = skip_of(skips, skip);
    let ends = u64::from(distance_of(found, parent)) + u64::from(distance_of(found, farther));
    if ends == 2 * u64::from(distance_of(found, skip)) {
        farther
    } else {
        parent
    }
}

/// The cell before each cell.
fn parents(alloc: Global, found: &[Option<Found>]) -> Result<Vec<u32>, Memory>
    requires few { length found.now ≤ 83886080 }
    requires way { IsWay found.now }
    ensures { IfOk result (λ parents. AreSkips found.now parents.items) }
{
    let mut parents = Vec::new(alloc);
    for cell in 0..found.len() as u32 {
        parents.push(parent_of(found, cell))?;
    }
    Ok(parents)
}

/// Lets the skip of a cell lead far up.
fn set_skip(found: &[Option<Found>], skips: &mut Vec<u32>, cell: u32)
    requires way { IsWay found.now }
    requires skips { AreSkips found.now skips.old.items }
    ensures { AreSkips found.now skips.new.items }
{
    let at = cell as usize;
    if at < skips.len() && distance_of(found, cell) != 0 {
        let skip = skip_for(found, skips.as_slice(), cell);
        skips[at] = skip;
    }
}

/// For each cell that was found another on the way to it.
pub(crate) fn skips(
    alloc: Global,
    found: &[Option<Found>],
    order: &[u32],
) -> Result<Vec<u32>, Memory>
    requires few { length found.now ≤ 83886080 }
    requires way { IsWay found.now }
    ensures { IfOk result (λ skips. AreSkips found.now skips.items) }
{
    let mut skips = parents(alloc, found)?;
    for cell in order {
        set_skip(found, &mut skips, *cell);
    }
    Ok(skips)
}

/// A cell on the way to this one that isn't nearer to the root than so many steps: where the skip leads, or the parent.
fn farther_up(found: &[Option<Found>], skips: &[u32], cell: u32, distance: u32) -> u32
    requires way { IsWay found.now }
    requires skips { AreSkips found.now skips.now }
    requires behind { distance < distance_of found.now cell }
    ensures above { IsAbove found.now cell result }
    ensures not_past { distance ≤ distance_of found.now result }
{
    let skip = skip_of(skips, cell);
    if distance_of(found, skip) >= distance {
        skip
    } else {
        parent_of(found, cell)
    }
}

/// The cell at this distance on the way to a cell.
fn on_the_way(found: &[Option<Found>], skips: &[u32], cell: u32, distance: u32) -> u32
    requires way { IsWay found.now }
    requires skips { AreSkips found.now skips.now }
    requires within { distance ≤ distance_of found.now cell }
    ensures { result ≡ above found.now (distance_of found.now cell - distance) cell }
{
    let mut at = cell;
    while distance_of(found, at) > distance {
        at = farther_up(found, skips, at, distance);
    }
    at
}

/// Notes so many cells on the way to this one: itself last, and before each the one before it.
fn note_up_from(found: &[Option<Found>], last: u32, cells: &mut [u32], count: usize)
    requires room { count ≤ length cells.old }
    ensures same_size { length cells.new ≡ length cells.old }
    ensures each { AreUpFrom found.now last count cells.new }
{
    let mut at = last;
    let mut left = count;
    while left > 0 {
        left -= 1;
        cells[left] = at;
        at = parent_of(found, at);
    }
}

/// Notes cells on the way to a cell, one behind another, from the one at this distance on: as many as there is room
/// for.
#[tactic(auto, using(crate::proofs::TrailLaws::on_way_to_end, crate::proofs::TrailLaws::on_way_in_room))]
pub(crate) fn note_way(
    found: &[Option<Found>],
    skips: &[u32],
    cell: u32,
    distance: u32,
    cells: &mut [u32],
)
    requires way { IsWay found.now }
    requires skips { AreSkips found.now skips.now }
    requires within { distance ≤ distance_of found.now cell }
    ensures same_size { length cells.new ≡ length cells.old }
    ensures each { AreOnWay found.now cell distance cells.new }
{
    let steps = (distance_of(found, cell) - distance) as usize;
    let room = cells.len();
    if steps < room {
        note_up_from(found, cell, cells, steps + 1);
    } else if room > 0 {
        let last = on_the_way(found, skips, cell, distance + (room - 1) as u32);
        note_up_from(found, last, cells, room);
    }
}
