//! Rows of a standing heap: a host whose members, helpers and keeper each have a thread of their own.
//!
//! `sleeper` is a host to copy, one member of which sleeps in a bed: docs/EMBED.md leads through it. `showing` has a
//! keeper that shows what members hold, and `threads` and `filling` are a runtime's, over a `Host`. Of the other rows,
//! `script` says which calls members make, and what those that are pinned are answered; `playing` has what each actor
//! does in its thread. `polling` has actors that wait in their own way, `lying` members that rest in beds, `early` one
//! that comes early to freezes, and `resting` one that rests in the keeper's hands and wakes on another thread. `host`
//! opens a heap and plays all of them at once, and `rows` has each row by its name. A program asks for one by its name:
//! `check_standing(rt, rt.alloc(), "one_asks_in_its_second_call")`. It may touch `tide` alone, and nothing of the system
//! but memory and threads.
#![tactic(auto)]

mod filling;
mod script;
mod showing;
mod sleeper;
mod tally;
mod threads;
// these stand on those listed before
mod polling;
mod row;
// these stand on those listed before
mod playing;
// these stand on those listed before
mod cells;
mod early;
// these stand on those listed before
mod lying;
// these stand on those listed before
mod others;
// these stand on those listed before
mod resting;
// these stand on those listed before
mod host;
// these stand on those listed before
mod rows;

pub use rows::check_standing;
pub use sleeper::sleeper_finds_its_cell;
