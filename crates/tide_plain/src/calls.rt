//! The calls of the plain store.
//!
//! An operation is a function here: what refuses it, and else a call of `stored`, which holds the contents and
//! changes one thing of them. `PlainStore::call` answers an operation as defined, and `PlainStore::collect` frees
//! exactly the cells that nothing retains, which `collect` finds; where the collection isn't a full one, the cells
//! that the last one kept retain too. Its contracts speak of the store's layout, shapes and state by `layout_of`,
//! `shapes_of` and `state_of` of `specs/Store.antt`, of the array that was taken last and of the blocks that were swept
//! and the cells that were kept last.

mod allocation;
mod handles;
mod registers;
// these stand on those listed before
mod claims;
mod groups;
mod slots;
// these stand on those listed before
mod pairs;
mod properties;
// these stand on those listed before
mod calling;
// these stand on those listed before
mod store;

pub use store::PlainStore;
