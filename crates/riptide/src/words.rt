//! The words of the command line.
ghost use Rattle.std.specs.Prelude.{◌≡◌, None, IfOk, IsErr};
ghost use Rattle.std.specs.Vec.Iter.{into_iter_items};
ghost use Rattle.tide_options.specs.Options.{asked_by};

use std::alloc::{AllocError, Global};
use std::env::Args;
use std::io;

/// The words of the command line, of which the first is the program's name. Where they aren't all text they are words
/// that are refused.
pub fn words_of(alloc: Global, args: io::Result<Args>) -> Result<Vec<String>, AllocError>
    ensures given { IfOk args (λ given. IfOk result (λ words. words.items ≡ into_iter_items given)) }
    ensures refused { IsErr args → IfOk result (λ words. asked_by words.items ≡ None) }
{
    match args {
        Ok(given) => {
            let mut words = Vec::new(alloc);
            for word in given {
                words.push(word)?;
            }
            Ok(words)
        }
        Err(error) if error.kind() == io::ErrorKind::OutOfMemory => Err(AllocError),
        Err(_) => {
            let mut words = Vec::new(alloc);
            words.push(String::from_str(alloc, "riptide")?)?;
            words.push(String::from_str(alloc, "?")?)?;
            Ok(words)
        }
    }
}
