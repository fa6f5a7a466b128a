//! The options that the words of a command line ask for.
ghost use Rattle.std.specs.Prelude.{◌≡◌, ◌≢◌, ◌≤◌, Some, None, true, false, IfOk, IfErr};
ghost use Rattle.clap.specs.Words.{found_of, kind_of, rows_of};
ghost use Rattle.clap.specs.declared.error.kind.ErrorKind.TheVariants.{OutOfMemory};
ghost use Rattle.tide_options.specs.Options.{asked_by, is_set, number_at, options_in};

use crate::command::command;
use clap::error::ErrorKind;
use clap::{ArgMatches, Error};
use std::alloc::{AllocError, Global};

/// How many visitors there may be.
pub const MAX_VISITORS: u8 = 8;

/// What the words of a command line ask for.
#[derive(Clone, Copy, Debug, PartialEq, Eq)]
pub struct Options {
    /// How many visitors mark beside the mutators.
    pub visitors: u8,
    /// Whether the plain store runs.
    pub plain: bool,
    /// The number of the generated workload, where none is read.
    pub make: Option<u64>,
    /// Whether a line of each cell that lives at the end is printed behind the text.
    pub snapshot: bool,
    /// Whether a line of each cycle that ended is printed behind the text.
    pub stats: bool,
}

/// Why words give no options.
#[derive(Clone, Copy, Debug, PartialEq, Eq)]
pub enum Refused {
    /// They are no command line.
    Usage,
    /// Want of memory.
    Memory,
}

impl From<AllocError> for Refused {
    ghost use Rattle.tide_options.specs.declared.options.Refused.TheVariants.{Memory};

    ghost from_gives = { λ _ refused. refused ≡ Memory };

    fn from(_: AllocError) -> Refused {
        Refused::Memory
    }
}

/// The number of an option, where it was given.
fn number_at(matches: &ArgMatches, name: &str) -> Option<u64>
    ensures { result ≡ number_at name.now (rows_of (found_of matches.now)) }
{
    matches.get_one::<u64>(name)
}

/// Whether a flag was given.
fn is_set(matches: &ArgMatches, name: &str) -> bool
    ensures { result ≡ is_set name.now (rows_of (found_of matches.now)) }
{
    matches.get_one::<bool>(name).unwrap_or(false)
}

/// The options that matches give. A plain run has no visitors, so it isn't asked for their number. A snapshot and the
/// lines of cycles are of a heap that threads shared, and behind a text, so they aren't asked of a plain run nor of a
/// generated workload.
fn options_in(matches: &ArgMatches) -> Option<Options>
    ensures { result ≡ options_in (rows_of (found_of matches.now)) }
{
    let visitors = number_at(matches, "visitors");
    let plain = is_set(matches, "plain");
    let make = number_at(matches, "make");
    let snapshot = is_set(matches, "snapshot");
    let stats = is_set(matches, "stats");
    if plain && visitors.is_some() {
        return None;
    }
    if (snapshot || stats) && (plain || make.is_some()) {
        return None;
    }
    let visitors = visitors.unwrap_or(0);
    if visitors > u64::from(MAX_VISITORS) {
        return None;
    }
    Some(Options {
        visitors: visitors as u8,
        plain,
        make,
        snapshot,
        stats,
    })
}

/// Why words are refused that `clap` doesn't take.
fn refusal_of(error: &Error) -> Refused
    ensures { result ≢ Refused.Memory → kind_of error.now ≢ OutOfMemory }
{
    match error.kind() {
        ErrorKind::OutOfMemory => Refused::Memory,
        _ => Refused::Usage,
    }
}

/// The options that the words of a command line ask for. The first word is the program's name, and no word at all is
/// read as the name alone.
pub fn options_of(alloc: Global, words: &[String]) -> Result<Options, Refused>
    ensures asked { IfOk result (λ options. asked_by words.now ≡ Some options) }
    ensures refused { IfErr result (λ why. why ≢ Refused.Memory → asked_by words.now ≡ None) }
    ensures few { IfOk result (λ options. options.visitors ≤ 8) }
    ensures shared { IfOk result (λ options. options.plain ≡ true → options.snapshot ≡ false) }
    ensures uncounted { IfOk result (λ options. options.plain ≡ true → options.stats ≡ false) }
{
    let matches = match command(alloc)?.try_get_matches_from(words) {
        Ok(matches) => matches,
        Err(error) => return Err(refusal_of(&error)),
    };
    options_in(&matches).ok_or(Refused::Usage)
}
