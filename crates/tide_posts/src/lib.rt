//! What the tickets and the notes of a heap say that are handed over by `tide_hands`.
//!
//! `Facts` is that as `tide_hands` asks for it, and `HeapName` the name that its table has: which heap it is. A ticket
//! tells the history up to the opening of its part. A mutator's note tells that it made its share since what its ticket
//! told, and a visitor's that it has done its part.
//!
//! It may touch `tide_heap` and `tide_hands`, which it hands on, and has neither a call nor a step: what is here is for
//! contracts to speak of. `tide_server` hands over by it.
#![tactic(auto)]

mod handed;
pub mod laws;
mod name;
// these stand on those listed before
mod facts;

pub use facts::Facts;
pub use handed::HandedIn;
pub use name::HeapName;
pub use tide_hands::{
    Found, HandTable, HandView, Hands, KeeperSeat, Keyed, MemberSeat, Parcel, Parcels, open_table,
};
pub use tide_heap::{Books, GreyList, Heap, HeapShapes, Layout, Note, Pacing, Pass, Ticket, fits};
