//! Weak references of one's own: a script's engine with a cache of weak references and a registry that closes files.
//!
//! `Engine` is a heap with a realm in the midst of a part (`engine`); it starts, and runs cycles between two parts
//! (`parts`), and a script asks it for cells, references and registrations (`asking`). `files` is the page of
//! docs/WEAKREF.md, `rows` has what each call answers, and `foreign` what becomes of a handle that another one sets.
//! A program asks for one by its name: `check_weakref(rt.alloc(), "files_are_closed")`. It may touch `tide` alone, the
//! one door, and nothing of the system but memory.
#![tactic(auto)]

mod engine;
// these stand on those listed before
mod asking;
mod parts;
// these stand on those listed before
mod files;
mod foreign;
mod rows;

use files::files_are_closed;
use foreign::foreign_handle_breaks_no_other;
use rows::{
    delivered_in_order, each_handle_is_in_use_once, gone_target_is_no_other_cell,
    held_value_is_delivered_once, nothing_is_kept_without_handles, nothing_is_made_without_handles,
    number_is_used_again, old_target_waits_for_a_full_cycle, reference_is_kept_for_a_job,
    second_registration_is_refused, second_target_is_not_told, second_target_is_refused,
    taken_back_is_not_delivered, unregistered_is_not_delivered,
};
use std::alloc::Global;

/// Makes the row or the page of this name, and answers whether all was as expected.
pub fn check_weakref(alloc: Global, name: &str) -> bool {
    let found = match name {
        "files_are_closed" => files_are_closed(alloc),
        "reference_is_kept_for_a_job" => reference_is_kept_for_a_job(alloc),
        "second_target_is_refused" => second_target_is_refused(alloc),
        "held_value_is_delivered_once" => held_value_is_delivered_once(alloc),
        "unregistered_is_not_delivered" => unregistered_is_not_delivered(alloc),
        "taken_back_is_not_delivered" => taken_back_is_not_delivered(alloc),
        "delivered_in_order" => delivered_in_order(alloc),
        "second_registration_is_refused" => second_registration_is_refused(alloc),
        "nothing_is_made_without_handles" => nothing_is_made_without_handles(alloc),
        "nothing_is_kept_without_handles" => nothing_is_kept_without_handles(alloc),
        "each_handle_is_in_use_once" => each_handle_is_in_use_once(alloc),
        "number_is_used_again" => number_is_used_again(alloc),
        "gone_target_is_no_other_cell" => gone_target_is_no_other_cell(alloc),
        "second_target_is_not_told" => second_target_is_not_told(alloc),
        "old_target_waits_for_a_full_cycle" => old_target_waits_for_a_full_cycle(alloc),
        "foreign_handle_breaks_no_other" => foreign_handle_breaks_no_other(alloc),
        _ => None,
    };
    found == Some(true)
}
