//! Shapes: the lists of property keys that a cell may have, and the next shape by a key.
//!
//! A workload declares paths of keys, and the shapes are the beginnings of these paths. `ShapeTable` is what the rooms
//! above use of them, and its contracts speak of nothing but the list of keys of each shape. `Shapes` is the table that
//! is made of declared paths. It may touch `tide_model`, and knows no cell and no word.
#![tactic(auto)]

mod capacities;
mod paths;
mod shape_table;
mod shapes_refused;
mod tree;
// these stand on those listed before
mod shapes;

pub use capacities::{array_class_for, capacity};
pub use paths::Paths;
pub use shape_table::ShapeTable;
pub use shapes::{Shapes, double_path};
pub use shapes_refused::ShapesRefused;
