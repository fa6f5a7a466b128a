//! The workload of a number: its settings, and each mutator's rounds.
ghost use Rattle.std.specs.Prelude.{◌≡◌, ◌<◌, IfOk, OnOk};
ghost use Rattle.tide_make.specs.Made.{made, script_of, settings};

use crate::round::{next_seed, push_round};
use std::alloc::{AllocError, Global};
use tide_model::{Memory, Op};
use tide_text::{Settings, Workload};

/// How many mutators there are, each with a class of cells of its own.
const MUTATORS: u8 = 4;

/// How many rounds each mutator has.
const ROUNDS: u32 = 4_000;

/// The numbers of each generated workload: a class has room for all cells that its mutator allocates.
fn settings() -> Settings
    ensures { result ≡ settings }
{
    Settings {
        registers: 10,
        strong: 256,
        weak: 0,
        blocks: [64, 64, 64, 64, 0],
        arrays: [0, 0, 0, 0, 0],
        period: 64,
        headroom: 4_000,
        trigger: 1_000,
    }
}

/// The operations of a mutator.
fn script(alloc: Global, number: u64, mutator: u8) -> Result<Vec<Op>, AllocError>
    requires { mutator < 4 }
    ensures { IfOk result (λ ops. ops.items ≡ script_of number mutator) }
{
    let mut ops = Vec::new(alloc);
    let mut seed = number.wrapping_add(u64::from(mutator));
    for round in 0..ROUNDS {
        seed = next_seed(seed);
        push_round(&mut ops, mutator, round, seed)?;
    }
    Ok(ops)
}

/// The generated workload of a number. `Err` for want of memory alone.
pub fn make(alloc: Global, number: u64) -> Result<Workload, Memory>
    ensures { IfOk result (λ load. load ≡ made number) }
{
    let mut scripts = Vec::new(alloc);
    for mutator in 0..MUTATORS {
        let ops = script(alloc, number, mutator).map_err(|_| Memory)?;
        scripts.push(ops).map_err(|_| Memory)?;
    }
    Ok(Workload::of(alloc, settings(), scripts))
}
