//! How one keeper and its members hand parcels to each other, through one slot and one word a member.
//!
//! The keeper posts a ticket, its member takes it and posts a note, and the keeper takes that. Instead of a ticket the
//! keeper may post an end. What a ticket and a note are the caller says, by `Parcels`: whoever takes one has what its
//! poster showed. Each call returns at once, but for those that take a `Wait`: they park on the member's word.
//!
//! It may touch `atomic_table` alone: it knows no heap. What a heap's tickets and notes are, `tide_posts` says over it.
#![tactic(auto)]

mod found;
mod parcel;
mod view;
mod words;
// these stand on those listed before
mod table;
// these stand on those listed before
mod steps;
// these stand on those listed before
mod keeper;
mod member;
// these stand on those listed before
mod seating;

pub use found::Found;
pub use keeper::KeeperSeat;
pub use member::MemberSeat;
pub use parcel::Parcel;
pub use seating::open_table;
pub use table::{HandTable, Hands, Keyed, Parcels};
pub use view::HandView;
