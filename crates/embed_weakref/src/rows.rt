//! Rows of weak references and registrations: what each call answers, between full cycles.
use crate::engine::Engine;
use std::alloc::Global;
use tide::{Reply, Val, WeakRefused};

/// A reference keeps its target for the job, and a full cycle after that frees it.
pub fn reference_is_kept_for_a_job(alloc: Global) -> Option<bool> {
    let mut engine = Engine::start(alloc, 2, 2, 0)?;
    engine.alloc(0);
    let Ok(r) = engine.make_ref(0) else {
        return None;
    };
    engine.let_go(0);
    let mut engine = engine.next_part(true)?;
    let kept = engine.deref(r, 1) == Ok(Val::Cell(0));
    engine.end_job();
    engine.let_go(1);
    let mut engine = engine.next_part(true)?;
    let gone = engine.deref(r, 1) == Ok(Val::Empty);
    Some(r == 0 && kept && gone)
}

/// A job that keeps one cell refuses a second one, and a realm with two weak handles a third reference.
pub fn second_target_is_refused(alloc: Global) -> Option<bool> {
    let mut engine = Engine::start(alloc, 1, 2, 0)?;
    engine.alloc(0);
    engine.alloc(1);
    let Ok(r) = engine.make_ref(0) else {
        return None;
    };
    let other = engine.make_ref(1) == Err(WeakRefused::KeptFull);
    let same = engine.deref(r, 2) == Ok(Val::Cell(0));
    let again = engine.make_ref(2) == Ok(1);
    engine.let_go(2);
    let empty = engine.make_ref(2) == Err(WeakRefused::NotCell { reg: 2 });
    let full = engine.make_ref(0) == Err(WeakRefused::RefsFull);
    Some(other && same && again && empty && full)
}

/// A registration is delivered once, and only after its target is gone.
pub fn held_value_is_delivered_once(alloc: Global) -> Option<bool> {
    let mut engine = Engine::start(alloc, 2, 2, 0)?;
    engine.alloc(0);
    let registered = engine.register(0, 7, 1) == Ok(());
    let early = engine.deliver().is_none();
    engine.let_go(0);
    let mut engine = engine.next_part(true)?;
    let delivered = engine.deliver() == Some(7);
    let late = engine.deliver().is_none();
    Some(registered && early && delivered && late)
}

/// What was taken back isn't delivered: both registrations with a token, and not the other one.
pub fn unregistered_is_not_delivered(alloc: Global) -> Option<bool> {
    let mut engine = Engine::start(alloc, 0, 2, 0)?;
    engine.alloc(0);
    engine.alloc(1);
    let one = engine.register(0, 7, 1) == Ok(());
    let two = engine.register(1, 8, 1) == Ok(());
    let both = engine.unregister(1) == 2;
    let none = engine.unregister(1) == 0;
    let other = engine.register(1, 9, 2) == Ok(());
    let still = engine.unregister(1) == 0;
    engine.let_go(0);
    engine.let_go(1);
    let mut engine = engine.next_part(true)?;
    let delivered = engine.deliver() == Some(9);
    let no_more = engine.deliver().is_none();
    Some(one && two && both && none && other && still && delivered && no_more)
}

/// A realm with one weak handle refuses a second registration, and each realm one of no cell.
pub fn second_registration_is_refused(alloc: Global) -> Option<bool> {
    let mut engine = Engine::start(alloc, 2, 1, 0)?;
    engine.alloc(0);
    let empty = engine.register(1, 8, 1) == Err(WeakRefused::NotCell { reg: 1 });
    let one = engine.register(0, 7, 1) == Ok(());
    let full = engine.register(0, 8, 1) == Err(WeakRefused::RefsFull);
    let bare = engine.register(1, 8, 1) == Err(WeakRefused::NotCell { reg: 1 });
    Some(empty && one && full && bare)
}

/// A realm without handles keeps nothing and makes nothing.
pub fn nothing_is_made_without_handles(alloc: Global) -> Option<bool> {
    let mut engine = Engine::start(alloc, 0, 0, 0)?;
    engine.alloc(0);
    let full = engine.make_ref(0) == Err(WeakRefused::RefsFull);
    let bare = engine.make_ref(1) == Err(WeakRefused::NotCell { reg: 1 });
    let none = engine.register(0, 7, 1) == Err(WeakRefused::RefsFull);
    engine.end_job();
    let nothing = engine.deliver().is_none() && engine.unregister(1) == 0;
    Some(full && bare && none && nothing)
}

/// A realm that can keep no cell makes no reference.
pub fn nothing_is_kept_without_handles(alloc: Global) -> Option<bool> {
    let mut engine = Engine::start(alloc, 0, 1, 0)?;
    engine.alloc(0);
    Some(engine.make_ref(0) == Err(WeakRefused::KeptFull))
}

/// A reference is given up, and its number is that of the next one, which leads to another cell.
pub fn number_is_used_again(alloc: Global) -> Option<bool> {
    let mut engine = Engine::start(alloc, 2, 1, 0)?;
    engine.alloc(0);
    engine.alloc(1);
    let Ok(r) = engine.make_ref(0) else {
        return None;
    };
    let full = engine.make_ref(1) == Err(WeakRefused::RefsFull);
    engine.drop_ref(r);
    let Ok(again) = engine.make_ref(1) else {
        return None;
    };
    let leads = engine.deref(again, 2) == Ok(Val::Cell(1));
    Some(full && again == r && leads)
}

/// An old cell that was let go isn't freed by an Eden cycle, and is by a full one: only then its registration is
/// delivered.
pub fn old_target_waits_for_a_full_cycle(alloc: Global) -> Option<bool> {
    let mut engine = Engine::start(alloc, 0, 1, 1)?;
    engine.alloc(0);
    let registered = engine.register(0, 7, 1) == Ok(());
    let mut engine = engine.next_part(true)?;
    engine.let_go(0);
    engine.alloc(1);
    let engine = engine.next_part(false)?;
    let mut engine = engine.next_part(false)?;
    let early = engine.deliver().is_none();
    let waits = engine.ended() == 2;
    let mut engine = engine.next_part(true)?;
    Some(registered && early && waits && engine.deliver() == Some(7))
}

/// What was taken back before the cycle isn't delivered after it.
pub fn taken_back_is_not_delivered(alloc: Global) -> Option<bool> {
    let mut engine = Engine::start(alloc, 2, 2, 0)?;
    engine.alloc(0);
    let registered = engine.register(0, 7, 1) == Ok(());
    let early = engine.deliver().is_none();
    engine.let_go(0);
    let one = engine.unregister(1) == 1;
    let mut engine = engine.next_part(true)?;
    Some(registered && early && one && engine.deliver().is_none())
}

/// Registrations whose targets are gone are delivered in the order in which they were made, past one whose target
/// lives.
pub fn delivered_in_order(alloc: Global) -> Option<bool> {
    let mut engine = Engine::start(alloc, 0, 3, 0)?;
    engine.alloc(0);
    engine.alloc(1);
    engine.alloc(2);
    let first = engine.register(0, 7, 1) == Ok(());
    let second = engine.register(2, 8, 1) == Ok(());
    let third = engine.register(1, 9, 1) == Ok(());
    engine.let_go(1);
    engine.let_go(2);
    let mut engine = engine.next_part(true)?;
    let one = engine.deliver() == Some(8);
    let other = engine.deliver() == Some(9);
    let no_more = engine.deliver().is_none();
    engine.let_go(0);
    let mut engine = engine.next_part(true)?;
    let last = engine.deliver() == Some(7);
    Some(first && second && third && one && other && no_more && last)
}

/// References and registrations are counted together, and what is taken back makes room.
pub fn each_handle_is_in_use_once(alloc: Global) -> Option<bool> {
    let mut engine = Engine::start(alloc, 1, 4, 0)?;
    engine.alloc(0);
    let Ok(one) = engine.make_ref(0) else {
        return None;
    };
    let Ok(other) = engine.make_ref(0) else {
        return None;
    };
    let registered = engine.register(0, 7, 1) == Ok(());
    let again = engine.register(0, 8, 1) == Ok(());
    let full = engine.make_ref(0) == Err(WeakRefused::RefsFull);
    let full_too = engine.register(0, 9, 1) == Err(WeakRefused::RefsFull);
    let room = engine.unregister(1) == 2;
    let Ok(third) = engine.make_ref(0) else {
        return None;
    };
    let are_others = one != other && third != one && third != other;
    Some(registered && again && full && full_too && room && are_others)
}

/// A target is gone, and its number is that of another cell: the reference leads to nothing still, also where no cell
/// more can be kept.
pub fn gone_target_is_no_other_cell(alloc: Global) -> Option<bool> {
    let mut engine = Engine::start(alloc, 1, 2, 0)?;
    engine.alloc(0);
    let Ok(gone) = engine.make_ref(0) else {
        return None;
    };
    engine.end_job();
    engine.let_go(0);
    let engine = engine.next_part(true)?;
    // What the first cycle freed is swept before the second one begins.
    let mut engine = engine.next_part(true)?;
    let is_again = engine.alloc(1) == Reply::Born(0);
    let Ok(found) = engine.make_ref(1) else {
        return None;
    };
    let nothing = engine.deref(gone, 2) == Ok(Val::Empty);
    let leads = engine.deref(found, 2) == Ok(Val::Cell(0));
    Some(is_again && nothing && leads)
}

/// A job that keeps one cell refuses to tell a second one, and the register keeps what it held.
pub fn second_target_is_not_told(alloc: Global) -> Option<bool> {
    let mut engine = Engine::start(alloc, 1, 2, 0)?;
    engine.alloc(0);
    engine.alloc(1);
    engine.alloc(2);
    let Ok(one) = engine.make_ref(0) else {
        return None;
    };
    engine.end_job();
    let Ok(_other) = engine.make_ref(1) else {
        return None;
    };
    let refused = engine.deref(one, 2) == Err(WeakRefused::KeptFull);
    let holds = engine.make_ref(2) == Err(WeakRefused::RefsFull);
    engine.end_job();
    let told = engine.deref(one, 2) == Ok(Val::Cell(0));
    Some(refused && holds && told)
}
