//! Why nothing was run, the status that it gives, and the line that tells it.
ghost use Rattle.std.specs.Prelude.{◌≡◌};
ghost use Rattle.tide_run.specs.Program.{TellsLine};

use tide_io::{Sink, write_all};
use tide_workload::{Fault, write_fault_line};

/// Why nothing was run.
#[derive(Clone, Copy)]
pub enum Stop {
    Usage,
    ReadFault,
    BadInput { fault: Fault },
    Memory,
}

impl Stop {
    ghost use Rattle.tide_run.specs.Program.{stop_status, stop_line};

    pub(crate) fn status(self) -> u8
        ensures { result ≡ stop_status self }
    {
        match self {
            Stop::Usage => 2,
            Stop::BadInput { .. } => 3,
            Stop::ReadFault => 4,
            Stop::Memory => 6,
        }
    }

    /// Writes the line that says why to the error sink, whose faults change nothing.
    pub(crate) fn tell<E: Sink>(self, err: &mut E)
        ensures { TellsLine (E.held err.old) (E.held err.new) (E.faults err.old) (E.faults err.new) (stop_line self) }
    {
        match self {
            Stop::Usage => tell(
                err,
                "riptide: usage: riptide [--visitors N] [--plain] [--make N] [--snapshot] [--stats]\n",
            ),
            Stop::ReadFault => tell(err, "riptide: read fault\n"),
            Stop::BadInput { fault } => {
                let _ = write_fault_line(err, fault);
            }
            Stop::Memory => tell(err, "riptide: no memory\n"),
        }
    }
}

/// Writes a line to the error sink, whose faults change nothing.
pub(crate) fn tell<E: Sink>(err: &mut E, line: &str)
    ensures { TellsLine (E.held err.old) (E.held err.new) (E.faults err.old) (E.faults err.new) line.now }
{
    let _ = write_all(err, line.as_bytes());
}
