//! A host of a standing heap, to copy: three members work, a fourth sleeps in a bed meanwhile, two helpers mark, and a
//! keeper turns. Each of them has a thread of its own.

mod keeping;
mod working;
// these stand on those listed before
mod sleeping;
// these stand on those listed before
mod playing;
// these stand on those listed before
mod opening;

pub use opening::sleeper_finds_its_cell;
