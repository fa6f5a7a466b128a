//! The program `tide_lisp`: runs small Lisp scripts on one heap, each on a mutator of its own, with visitors beside.
//!
//! It reads each script (`text`, `reading`), opens a heap whose objects may have the keys that the scripts name, and
//! runs each script on a thread of the heap's host (`machine`). It touches the heap by the door's `Host` and `Thread`
//! alone: no line here speaks of a part, a ticket or a note.
#![tactic(auto)]

mod fault;
mod kind;
mod text;
mod words;
// these stand on those listed before
mod code;
mod names;
mod refusal;
mod trap;
// these stand on those listed before
mod form;
mod registers;
mod scope;
// these stand on those listed before
mod machine;
mod reading;
// these stand on those listed before
mod cells;
mod closing;
mod operations;
mod running;

use running::{Left, run};
use std::process::ExitCode;
use std::{env, io};
use words::{Words, words_of};

/// Prints what the scripts left. Tells of each that was stopped.
fn print_all<R: Print + Eprint>(rt: &R, words: &Words, all: &[Left]) -> io::Result<ExitCode> {
    let mut status = ExitCode::SUCCESS;
    for (number, left) in all.iter().enumerate() {
        let name = words.name(number);
        if all.len() > 1 {
            println!(rt; "; {name}")?;
        }
        rt.print(left.printed.as_str())?;
        if let Err(trap) = left.ended {
            eprintln!(rt; "tide_lisp: {name}: {trap}")?;
            status = ExitCode::from(1);
        }
    }
    Ok(status)
}

fn main(rt: HostRuntime) -> io::Result<ExitCode> {
    let alloc = rt.alloc();
    let Some(words) = words_of(alloc, env::args(&rt)?)? else {
        eprintln!(rt;
            "usage: tide_lisp [--helpers=N] [--blocks=N] [--trigger=N] [--calls=N] [SCRIPT..]"
        )?;
        return Ok(ExitCode::from(2));
    };
    match run(&rt, alloc, &words) {
        Ok(all) => print_all(&rt, &words, all.as_slice()),
        Err(refusal) => {
            eprintln!(rt; "tide_lisp: {refusal}")?;
            Ok(ExitCode::from(2))
        }
    }
}
