//! `Facts`: what lies in a slot of the table by which a heap hands tickets and notes over.
ghost use Rattle.tide_posts.specs.Name.{places};
ghost use Rattle.tide_posts.specs.Posts.{IsHandedIn, IsTicketFor};

use crate::handed::HandedIn;
use crate::name::HeapName;
use tide_hands::{Keyed, Parcels};
use tide_heap::{Heap, HeapShapes, Ticket};

/// What the tickets and notes of a heap say.
pub struct Facts;

impl Parcels<Ticket, HandedIn, HeapName> for Facts {
    ghost ticket_ok = { IsTicketFor };

    ghost note_ok = { IsHandedIn };
}

impl<S: HeapShapes> Keyed<HeapName> for Heap<S> {
    ghost name = { λ heap. record { layout = heap.key.layout; table_id = heap.table.shared.table_id } };

    ghost count = { λ heap. places heap.key.layout };
}
