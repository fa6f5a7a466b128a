//! A heap for a C program: a static library with some exports, over the heap that stands for the life of its host.
//!
//! C holds a `Handle` of each party of a heap: its keeper, its members and its helpers. None of the exports waits:
//! `tide_call` says where a turn comes first, and the host's threads meet as they like. What C hands in that doesn't fit
//! is refused by a named status, and changes nothing.
//!
//! It may touch `tide` alone.
#![tactic(auto)]

mod block;
mod looking;
mod operation;
mod party;
mod status;
// these stand on those listed before
mod calling;
mod handle;
mod turning;
// these stand on those listed before
mod asked;
mod holding;
mod opening;
// these stand on those listed before
mod exports;
