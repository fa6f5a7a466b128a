//! Weak references and registrations for finalization, in the manner of ECMAScript's `WeakRef` and
//! `FinalizationRegistry`, over one mutator of a heap.
//!
//! A `Realm` has a mutator of its own, a scratch register, and ranges of strong and of weak handles. A reference or a
//! registration takes a weak handle (`weaks`); what a job got out of a reference is kept in a strong handle until the
//! job ends (`kept`, `jobs`). What it does on the heap are calls of its mutator (`stepping`). It may touch
//! `tide_mutator`, the heap and shapes, and knows no thread, no other mutator, and nothing of the collector. Programs
//! of one's own have it by `tide`, as a runtime for a script language; no command of `riptide` does.
#![tactic(auto)]

mod range;
mod refused;
mod weak;
// these stand on those listed before
mod kept;
mod weaks;
// these stand on those listed before
mod realm;
mod stepping;
// these stand on those listed before
mod calling;
mod jobs;
// these stand on those listed before
mod finalizing;
mod referring;

pub use range::Range16;
pub use realm::Realm;
pub use refused::WeakRefused;
pub use weak::{Role, Weak};
