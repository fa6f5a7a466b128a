//! The command as `clap` gets it.
ghost use Rattle.std.specs.Prelude.{◌≡◌, IfOk};
ghost use Rattle.clap.specs.Words.{app_of, rule_of};
ghost use Rattle.tide_options.specs.Command.{command, flag, number_option};

use clap::{Arg, ArgAction, Command, value_parser};
use std::alloc::{AllocError, Global};

/// An option of this name that takes a number.
fn number_option<'a>(alloc: Global, name: &'a str) -> Arg<'a>
    ensures { rule_of result ≡ number_option name.entry.now }
{
    let number = value_parser!(u64);
    Arg::new(alloc, name).long(name).value_parser(number)
}

/// A flag of this name.
fn flag<'a>(alloc: Global, name: &'a str) -> Arg<'a>
    ensures { rule_of result ≡ flag name.entry.now }
{
    Arg::new(alloc, name).long(name).action(ArgAction::SetTrue)
}

/// The command `riptide`: two options that take a number, and three flags. A word that asks for help is one it doesn't
/// know.
pub fn command<'a>(alloc: Global) -> Result<Command<'a>, AllocError>
    ensures { IfOk result (λ made. app_of made ≡ command) }
{
    let named = Command::new(alloc, "riptide").disable_help_flag(true);
    named
        .arg(number_option(alloc, "visitors"))?
        .arg(flag(alloc, "plain"))?
        .arg(number_option(alloc, "make"))?
        .arg(flag(alloc, "snapshot"))?
        .arg(flag(alloc, "stats"))
}
