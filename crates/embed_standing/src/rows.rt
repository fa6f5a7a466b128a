//! Rows of a standing heap: what its actors are answered, and what its report tells.
ghost use Rattle.std.specs.Prelude.{◌≤◌};

use crate::filling::full_is_told_behind_a_cycle;
use crate::host::{Seen, run};
use crate::row::{Rests, Row};
use crate::script::Script;
use crate::showing::what_is_held_is_shown;
use crate::sleeper::sleeper_finds_its_cell;
use crate::threads::lists_are_handed_on;
use std::alloc::Global;
use std::marker::Sync;
use std::sync::Wait;
use std::thread::Threads;
use tide::{Pacing, Report};

/// Parts of so many calls, and pauses of four visits. A cycle stops all calls once a hundred cells were born in it.
fn in_parts_of(calls: u32, trigger: u32) -> Pacing
    requires least { 4 ≤ calls }
    requires most { calls ≤ 65536 }
{
    Pacing {
        calls,
        visits: 4,
        headroom: 100,
        trigger,
    }
}

/// Whether the cycles of a report are numbered in turn, from 1 on.
fn are_in_turn(report: &Report) -> bool {
    let mut last = 0u64;
    for line in report.cycles() {
        if line.number != last.wrapping_add(1) {
            return false;
        }
        last = line.number;
    }
    true
}

/// Whether all went right, each helper took part in each part, the cycles are numbered in turn, and a mutator stopped
/// early exactly where one rested or came early.
fn is_whole(row: &Row, seen: &Seen) -> bool {
    seen.is_right
        && seen.stopped == (row.rests != Rests::Never)
        && seen.parts == seen.turns.saturating_mul(u64::from(row.helpers))
        && are_in_turn(&seen.report)
}

/// Plays a row, and answers whether it was whole and had so many parts at least.
fn lasts<R: Threads + Wait + Sync>(rt: &R, alloc: Global, row: &Row, parts: u64) -> Option<bool> {
    let seen = run(rt, alloc, row).ok()??;
    Some(is_whole(row, &seen) && seen.turns >= parts)
}

/// One member makes a cell and asks for a cycle. That keeps the cell, and the one after it has left frees it.
fn one_asks_in_its_second_call<R: Threads + Wait + Sync>(rt: &R, alloc: Global) -> Option<bool> {
    let row = Row {
        members: 1,
        helpers: 0,
        pacing: in_parts_of(4, 0),
        script: Script::BornAndAsked,
        calls: 2,
        second_calls: 0,
        meets: false,
        rests: Rests::Never,
        polls: false,
    };
    let seen = run(rt, alloc, &row).ok()??;
    let [kept, freed] = seen.report.cycles() else {
        return Some(false);
    };
    let lines = (kept.kept, kept.freed, freed.kept, freed.freed) == (1, 0, 0, 1);
    Some(is_whole(&row, &seen) && seen.turns == 2 && lines && seen.report.ids() == [0].as_slice())
}

/// Two members, whose first calls are held until both have come, each make a cell that refers to itself and let it go.
/// Beside a helper both cells are freed.
fn two_first_calls_meet<R: Threads + Wait + Sync>(rt: &R, alloc: Global) -> Option<bool> {
    let row = Row {
        members: 2,
        helpers: 1,
        pacing: in_parts_of(4, 2),
        script: Script::LoopsApart,
        calls: 4,
        second_calls: 4,
        meets: true,
        rests: Rests::Never,
        polls: false,
    };
    let seen = run(rt, alloc, &row).ok()??;
    Some(is_whole(&row, &seen) && seen.report.ids().len() == 2)
}

/// The row of this name with many parts, if there is one, and how many it has at least.
fn long_row(name: &str) -> Option<(Row, u64)> {
    let (members, helpers, calls_in_part, trigger, script, calls, second_calls, parts) =
        match name {
            "cycles_begin_at_each_birth" => (2, 1, 4, 1, Script::Births, 3999, 3999, 1000),
            "one_leaves_in_its_first_part" => (4, 2, 4, 8, Script::Births, 3999, 0, 1000),
            "some_ask_for_cycles" => (4, 2, 4, 8, Script::Asks, 3999, 0, 1000),
            "all_wait_in_their_own_way" => (3, 2, 4, 8, Script::Asks, 3999, 0, 1000),
            "one_of_sixteen_leaves" => (16, 8, 4, 0, Script::Sets, 1199, 0, 300),
            "sixteen_beside_eight" => (16, 8, 4, 0, Script::Sets, 1199, 1199, 300),
            "sixteen_ask_beside_eight" => (16, 8, 4, 4, Script::Asks, 1199, 1199, 300),
            "pauses_shorter_than_parts" => (2, 1, 16, 8, Script::Births, 3999, 3999, 240),
            _ => return None,
        };
    let row = Row {
        members,
        helpers,
        pacing: in_parts_of(calls_in_part, trigger),
        script,
        calls,
        second_calls,
        meets: false,
        rests: Rests::Never,
        polls: name == "all_wait_in_their_own_way",
    };
    Some((row, parts))
}

/// Beside three members that make cells, a fourth rests for 600 turns with its cell in a register, and then wakes on
/// another thread. Its cell is still there, and some cycles ended meanwhile.
fn one_rests_beside_three<R: Threads + Wait + Sync>(rt: &R, alloc: Global) -> Option<bool> {
    let row = Row {
        members: 4,
        helpers: 2,
        pacing: in_parts_of(4, 8),
        script: Script::Births,
        calls: 3999,
        second_calls: 3999,
        meets: false,
        rests: Rests::InTheKeepersHands(600),
        polls: false,
    };
    let seen = run(rt, alloc, &row).ok()??;
    Some(is_whole(&row, &seen) && seen.turns > 600 && seen.report.cycles().len() > 4)
}

/// The row of this name in which members lie in beds or one comes early, if there is one, and how many parts it has at
/// least. Who lies down behind the keeper's second round finds its ticket there, and the keeper waits for its note.
/// Where one comes early, a part has more calls than it makes: no part ends before.
fn row_with_rests(name: &str) -> Option<(Row, u64)> {
    let (members, helpers, calls_in_part, trigger, calls, second_calls, rests, parts) = match name {
        "one_sleeps_beside_three" => (4, 1, 4, 1, 799, 799, Rests::UntilTheOthersLeft(0), 200),
        "one_lies_down_behind_its_ticket" => {
            (2, 1, 4, 8, 799, 799, Rests::UntilTheOthersLeft(2), 200)
        }
        "one_wakes_on_another_thread" => (3, 1, 4, 8, 799, 799, Rests::FromThreadToThread, 200),
        "sixteen_rest_by_turns" => (16, 2, 4, 8, 304, 304, Rests::ByTurns, 304),
        "one_comes_early" => (2, 1, 65536, 0, 65536, 200, Rests::ComesEarly, 200),
        _ => return None,
    };
    let script = match rests {
        Rests::ComesEarly => Script::OneAsks,
        _ => Script::Births,
    };
    let row = Row {
        members,
        helpers,
        pacing: in_parts_of(calls_in_part, trigger),
        script,
        calls,
        second_calls,
        meets: false,
        rests,
        polls: false,
    };
    Some((row, parts))
}

/// Plays the row of this name, and answers whether all was as expected.
pub fn check_standing<R: Threads + Wait + Sync>(rt: &R, alloc: Global, name: &str) -> bool {
    let found = match name {
        "one_asks_in_its_second_call" => one_asks_in_its_second_call(rt, alloc),
        "two_first_calls_meet" => two_first_calls_meet(rt, alloc),
        "one_rests_beside_three" => one_rests_beside_three(rt, alloc),
        "one_sleeps_in_a_bed" => sleeper_finds_its_cell(rt, alloc),
        "what_is_held_is_shown" => what_is_held_is_shown(rt, alloc).ok(),
        "lists_are_handed_on" => lists_are_handed_on(rt, alloc),
        "full_is_told_behind_a_cycle" => full_is_told_behind_a_cycle(rt, alloc),
        _ => match long_row(name).or(row_with_rests(name)) {
            Some((row, parts)) => lasts(rt, alloc, &row, parts),
            None => None,
        },
    };
    found == Some(true)
}
