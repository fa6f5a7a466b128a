//! Mutators on threads: each makes its calls on one shared heap, step by step, and each call stands in one lawful
//! history.
//!
//! A `Mutator` (`mutator`, `calling`) has a pass of `tide_heap`, the cells that it claims, where its searches for
//! something free go on, and the number of its calls. What a call is to do is decided by `tide_call` (`deciding`), over
//! own words that it loads (`own`). `acting` hands the action to the function that acts on it, and decides nothing. The
//! calls on own registers, on groups and on properties are here (`registers`, `groups`, `properties`, `leaving`), and
//! so is the addition of a property that needs a larger array (`growing`): what the cell's array holds is loaded
//! (`copying`), and a free one is found and taken (`allocating`). The calls that take, link, hold and claim cells are
//! those of `cells`.
//!
//! One step makes a call's entry in the history; what the call owes then it pays, one word at a time, while others make
//! theirs. It waits for nobody but the turnstile, has no lock, and takes no memory.

mod allocating;
mod copying;
mod groups;
mod leaving;
mod own;
mod properties;
mod registers;
// these stand on those listed before
mod deciding;
mod growing;
mod mutator;
// these stand on those listed before
mod acting;
// these stand on those listed before
mod calling;

pub use mutator::Mutator;
