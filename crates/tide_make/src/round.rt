//! One round of a mutator: the five operations that put a cell more in front of its chain.
ghost use Rattle.std.specs.Prelude.{◌≡◌, ◌<◌, ◌≤◌, ◌%◌, ◌++◌, OnOk};
ghost use Rattle.tide_make.specs.Rounds.{back, last_op, linked_register, next_seed, own_register, round_ops};

use std::alloc::AllocError;
use tide_model::Op;

/// How many cells a chain has.
const CHAIN: u32 = 50;

/// How many registers, from r1 on, take turns to hold the new cell.
const TURNS: u32 = 7;

/// How many strong handles a mutator has for its chains.
const HANDLES: u32 = 64;

/// What is drawn after a seed, by a linear congruence.
pub fn next_seed(seed: u64) -> u64
    ensures { result ≡ next_seed seed }
{
    seed.wrapping_mul(6_364_136_223_846_793_005)
        .wrapping_add(1_442_695_040_888_963_407)
}

/// How many cells back a round's new cell links, among those of its chain that registers still hold.
fn back(seed: u64, round: u32) -> u32
    ensures value { result ≡ back seed round }
    ensures within { result ≤ round }
    ensures held { result ≤ 6 }
{
    let held = (round % CHAIN).min(TURNS - 1);
    (seed / 8_589_934_592 % u64::from(held + 1)) as u32
}

/// The register of a round's new cell.
fn own_register(round: u32) -> u8
    ensures value { result ≡ own_register round }
{
    (1 + round % TURNS) as u8
}

/// The register of the cell that it links to.
fn linked_register(seed: u64, round: u32) -> u8
    ensures value { result ≡ linked_register seed round }
{
    own_register(round - back(seed, round))
}

/// The last operation of a round: a chain that is whole gets a strong handle, and else the cell before is read.
fn last_op(mutator: u8, round: u32) -> Op
    requires { mutator < 4 }
    ensures { result ≡ last_op mutator round }
{
    if round % CHAIN == CHAIN - 1 {
        Op::StrongSet {
            at: (HANDLES * u32::from(mutator) + round / CHAIN % HANDLES) as u16,
            val: 0,
        }
    } else {
        Op::Get {
            dst: 8,
            src: 0,
            slot: 0,
        }
    }
}

/// The five operations of a round.
fn round_ops(mutator: u8, round: u32, seed: u64) -> [Op; 5]
    requires { mutator < 4 }
    ensures { result ≡ round_ops mutator round seed }
{
    let new = own_register(round);
    let before = if round % CHAIN == 0 { 9 } else { 0 };
    [
        Op::Alloc {
            dst: new,
            class: mutator,
        },
        Op::Put {
            src: new,
            slot: 0,
            val: before,
        },
        Op::Move { dst: 0, src: new },
        Op::Put {
            src: 0,
            slot: 1,
            val: linked_register(seed, round),
        },
        last_op(mutator, round),
    ]
}

/// Puts a round's operations behind others.
pub fn push_round(ops: &mut Vec<Op>, mutator: u8, round: u32, seed: u64) -> Result<(), AllocError>
    requires { mutator < 4 }
    ensures { OnOk result (ops.new.items ≡ ops.old.items ++ round_ops mutator round seed) }
{
    ops.extend_from_slice(&round_ops(mutator, round, seed))
}
