//! The one door: all that a program of one's own calls to have a heap with a proved collector, under one name, and what
//! the clauses of these calls cite.
//!
//! `Start` makes a heap of a `Layout` over `Shapes`, its `Collector`, and a `Pass` for each participant. A `Mutator`
//! makes calls of it, a `Visitor` marks beside them, and the collector opens and freezes parts and keeps `Books`.
//! A `Realm` is a mutator with weak references and registrations. `open` makes of a started heap one that stands for
//! the life of its host: a `Standing`, with a `Member` for each mutator, a `Helper` for each visitor, and its `Keeper`.
//! A `Host` runs all of these: a function of a runtime's gets a `Thread` for each member, which makes calls, has a root
//! stack, and comes to freezes by itself. Shapes may be grown by threads before (`GrowShapes`). The definitions that
//! contracts cite are those of the rooms below, each under its room's name: `Rattle.tide.specs.tide_model.Lawful` is
//! `Lawful` of `tide_model`. What callers say of a participant between and in parts is `Rattle.tide.specs.Parts`.
//!
//! It may touch growers, weak references and `tide_server`, from which it has what stands below that, and `tide_shape`
//! for why shapes are refused. Programs of one's own name it alone, as `embed_heap`, `embed_weakref` and
//! `embed_standing` do.
#![tactic(auto)]

mod asking;
mod jobs;
mod registers;
mod roots;
mod sizes;
mod stats;
mod stop;
// these stand on those listed before
mod keeping;
mod own;
mod shapes;
// these stand on those listed before
mod thread;
// these stand on those listed before
mod values;
// these stand on those listed before
mod keyed;
mod stack;
// these stand on those listed before
mod waiting;
// these stand on those listed before
mod playing;
// these stand on those listed before
mod host;

pub use host::{Host, Ran};
pub use sizes::{Refused, Sizes};
pub use stats::Stats;
pub use stop::{Src, Stop};
pub use thread::Thread;
pub use tide_grow_shape::{
    GrowHook, GrowRefused, GrowShapes, Grower, Settled, growers_agree, settle,
};
pub use tide_server::{
    Beds, Books, Closed, Collector, CycleSums, Drained, Failed, FreePass, Frozen, GreyList, Heap,
    HeapShapes, Helper, Keeper, Keys, Layout, MAX_KEY_BYTES, MAX_KEYS, MemSink, Member, Memory,
    Mutator, NotOpened, Note, Numbers, Offered, Op, Opened, Pacing, Pass, Paths, PeriodsSpent,
    Place, RealSink, Refusal, Reply, Report, Resting, ShapeTable, Shapes, Sink, Snapshot, Standing,
    Start, Ticket, Turn, Turnstile, Val, Visitor, Woken, Worked, fits, is_key, open, take_snapshot,
};
pub use tide_weakref::{Range16, Realm, WeakRefused};
