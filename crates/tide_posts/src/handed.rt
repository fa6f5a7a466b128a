//! `HandedIn`: what a participant hands in after a part.
use tide_heap::Note;

/// A note, and whether its mutator stopped early: with calls of its share left.
#[derive(Drop)]
pub struct HandedIn {
    pub note: Note,
    pub early: bool,
}
