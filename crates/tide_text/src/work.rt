//! What a workload is: its settings, its property keys and the declared paths of them, the operations of each mutator
//! and the limits of all of these; which operation a text is; and what is wrong with bytes that are no workload.
//!
//! It knows neither the document that a workload stands in nor the lines that its run prints.

mod examples;
mod field;
mod keys;
mod settings;
mod words;
// these stand on those listed before
mod fault;
mod op_arguments;
mod workload;
// these stand on those listed before
mod read_op;

pub use fault::Fault;
pub use field::Field;
pub use keys::{Keys, MAX_KEY_BYTES, MAX_KEYS, is_key};
pub use op_arguments::OpArguments;
pub use read_op::op_of;
pub use settings::Settings;
pub use words::{is_trimmed, next_word};
pub use workload::{MAX_MUTATORS, MAX_OPS, Workload};
