//! A heap that stands for as long as its host. Its mutators and its visitors call it on threads of the host's, and one
//! keeper freezes it between two parts.
//!
//! `open` makes of a started heap a `Standing`, which threads share, a `Member` for each mutator, a `Helper` for each
//! visitor, and the `Keeper`. A member makes its calls: where its share of a part is over, its next call first hands its
//! note in and waits for the next ticket. A helper takes part in one part a call. `call`, `leave`, `work` and `turn` are loops over
//! what waits for nobody: `Member::offer`, `make`, `hand_in` and `retire`, `Helper::try_work` and `Keeper::try_turn`.
//! `open`, `offer`, `make`, `break_off`, `retire`, `try_work`, `turn_with_room` and `turn_and_snapshot` wake nobody either: behind one of them
//! `rouse` follows, where somebody may wait for what it posted.
//!
//! A member whose thread is to wait for something else, or to end, rests: it is a `Resting` then, in whose place
//! another begins and stops. It may lie in `Beds`: before each turn `Keeper::attend` begins and stops for all that lie
//! there. Where all lie there that have not left, it first waits for one to wake.
//!
//! It may touch the heap's collector, mutators and visitors by their calls, and hands tickets and notes over by
//! `tide_hands`. It knows no step. What a program of one's own names of the rooms below it hands on, by which `tide`
//! lists this room in place of them.
#![tactic(auto)]

mod helper;
mod keeper;
mod member;
mod standing;
// these stand on those listed before
mod helping;
mod parts;
mod posting;
mod resting;
// these stand on those listed before
mod coming;
// these stand on those listed before
mod attending;
mod calls;
mod finishing;
mod freezing;
mod opening;
mod taking;
// these stand on those listed before
mod beds;
mod turning;
// these stand on those listed before
mod looking;

pub use beds::{Beds, Woken};
pub use helper::{Helper, Worked};
pub use keeper::Keeper;
pub use member::Member;
pub use opening::{Opened, open};
pub use parts::Offered;
pub use resting::Resting;
pub use standing::Standing;
pub use tide_model::{FreePass, Memory, Op, Place, Refusal, Reply, Turnstile, Val};
pub use tide_mutator::Mutator;
pub use tide_posts::{Books, GreyList, Heap, HeapShapes, Layout, Note, Pacing, Pass, Ticket, fits};
pub use tide_report::Report;
pub use tide_shape::{Paths, ShapeTable, Shapes};
pub use tide_snapshot::{
    Failed, Keys, MAX_KEY_BYTES, MAX_KEYS, MemSink, RealSink, Sink, Snapshot, is_key,
    take as take_snapshot,
};
pub use tide_table::{
    Closed, Collector, CycleSums, Frozen, NotOpened, Numbers, PeriodsSpent, Start,
};
pub use tide_visitor::{Drained, Visitor};
pub use turning::Turn;
