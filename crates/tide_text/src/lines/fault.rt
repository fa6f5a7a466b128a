//! What is wrong with bytes that are no workload, in words.
ghost use Rattle.std.specs.Prelude.{◌≡◌, ◌+◌, ◌≤◌, ◌++◌, length};
ghost use Rattle.tide_text.specs.lines.FaultLine.{fault_text};

use crate::lines::line::Line;
use crate::work::Fault;

/// A bound on the bytes of a fault.
pub const LONGEST_FAULT: usize = 60;

impl<const ROOM: usize> Line<ROOM> {
    /// A fault in words.
    #[tactic(auto, unfolding(crate::specs::lines::FaultLine::fault_text))]
    pub fn fault(&mut self, fault: Fault) -> &mut Self
        requires { length self.old + LONGEST_FAULT ≤ ROOM }
        ensures same_reference { result.ghost_name ≡ self.entry.ghost_name }
        ensures value { result.now ≡ self.old ++ fault_text fault }
        ensures grown { length result.now ≤ length self.old + LONGEST_FAULT }
    {
        match fault {
            Fault::NotToml => self.text("not TOML"),
            Fault::TooLong => self.text("too long"),
            Fault::Missing { field } => self.text("missing field ").text(field.name()),
            Fault::Bad { field } => self.text("bad field ").text(field.name()),
            Fault::BadOp { mutator, at } => self
                .text("bad op")
                .operand(at)
                .text(" of mutator")
                .operand(mutator),
            Fault::Memory => self.text("no memory"),
        }
    }
}
