//! `Standing`: a heap, and the table by which its tickets and notes are handed over. It makes no step.
ghost use Rattle.std.specs.Prelude.{◌≡◌};
ghost use Rattle.tide_posts.specs.Name.{places};

use atomic_table::Table;
use std::alloc::Global;
use std::sync::atomic::AtomicBool;
use tide_posts::{
    Facts, HandView, HandedIn, Hands, Heap, HeapName, HeapShapes, Layout, Parcel, Ticket,
};

/// The table by which the tickets and notes of a heap are handed over.
pub(crate) type HeapHands<S> = Table<
    Parcel<Ticket, HandedIn>,
    HandView<HeapName>,
    Heap<S>,
    Hands<Ticket, HandedIn, HeapName, Facts, Heap<S>>,
    Global,
>;

/// A heap that threads share, with the table by which its tickets and notes are handed over.
#[derive(Drop)]
pub struct Standing<S: HeapShapes> {
    pub(crate) heap: Heap<S>,
    pub(crate) hands: HeapHands<S>,
    /// A member's last call ended its share of the part, so that a freeze is wanted.
    pub(crate) wanted: AtomicBool,
    ghost same: { hands.shared.key ≡ heap },
    ghost words: { hands.shared.table_id.words ≡ places heap.key.layout },
    ghost slots: { hands.shared.table_id.slots ≡ places heap.key.layout },
}

impl<S: HeapShapes> Standing<S> {
    /// What its heap was made with: an operation of a call has to fit it.
    pub fn layout(&self) -> &Layout
        ensures { result.now ≡ self.now.heap.key.layout }
    {
        self.heap.layout()
    }
}
