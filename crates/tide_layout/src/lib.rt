//! The layout of a heap: how large it is, and where each of its words lies.
//!
//! A heap is one list of words, parted into the regions of `Region`. A `Layout` tells how large each region is and
//! where each word lies: `place` for any region, `slot` for a cell and `element` for an array. No two words share a
//! place. Blocks, words and the plain store use it. It may touch `tide_model`, has no word, and doesn't know what one
//! says.
#![tactic(auto)]

mod region;
mod sizes;
// these stand on those listed before
mod numbers;
// these stand on those listed before
mod firsts;
// these stand on those listed before
mod layout;
// these stand on those listed before
mod operands;

pub use layout::Layout;
pub use operands::fits;
pub use region::Region;
pub use sizes::{BLOCK_SIZE, PAIRS, TABLE, array_capacity, slots, width};
