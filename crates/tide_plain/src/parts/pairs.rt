//! The places of a table: which has a pair of a key, and which has room for one. It knows no cell.
ghost use Rattle.std.specs.Prelude.{◌≡◌, ◌<◌, None, is_some, not, true, length, position, All, IfNone, IfSome};
ghost use Rattle.tide_plain.specs.parts.Pairs.{is_of, IsSeat};
ghost use Rattle.tide_plain.specs.parts.Pairs.{pairs_of, IsDistinctPairs};

use crate::parts::stored_cell::Pair;
use tide_model::Val;

/// Whether a place has a pair of the key.
fn is_of(place: Option<Pair>, key: u32) -> bool
    ensures { result ≡ is_of key place }
{
    match place {
        Some(pair) => pair.key == key,
        None => false,
    }
}

/// The place that has a pair of the key.
pub fn place_of(places: &[Option<Pair>], key: u32) -> Option<usize>
    ensures first { result ≡ position (is_of key) places.now }
    ensures within { IfSome result (λ place. place < length places.now) }
{
    places.iter().position(|place| is_of(*place, key))
}

/// The first place that has no pair.
fn empty_place(places: &[Option<Pair>]) -> Option<usize>
    ensures first { result ≡ position (λ place. not (is_some place)) places.now }
    ensures within { IfSome result (λ place. place < length places.now) }
{
    places.iter().position(|place| place.is_none())
}

/// What the places have under a key.
pub fn value_of(places: &[Option<Pair>], key: u32) -> Option<Val>
    ensures { result ≡ pairs_of places.now key }
{
    let place = place_of(places, key)?;
    let pair = places[place]?;
    Some(pair.value)
}

/// The place for a pair of the key: the one that has the key, and else the first empty one.
pub fn seat(places: &[Option<Pair>], key: u32) -> Option<usize>
    requires { IsDistinctPairs places.now }
    ensures seat { IfSome result (IsSeat places.now key) }
    ensures absent { IfNone result (pairs_of places.now key ≡ None) }
    ensures full { IfNone result (All (λ place. is_some place ≡ true) places.now) }
{
    match place_of(places, key) {
        Some(place) => Some(place),
        None => empty_place(places),
    }
}
