//! What each step of the collector tells, for proofs alone. No value of these types is made.
ghost use Rattle.std.specs.Prelude.{ℕ, []};
ghost use Rattle.tide_heap.specs.tide_core.machine.Frozen.{newcomer};
ghost use Rattle.tide_model.specs.History.{plain};
ghost use Rattle.tide_model.specs.Layout.{Layout as model};
ghost use Rattle.tide_model.specs.Refused.{ShapeLists};
ghost use Rattle.tide_model.specs.declared.entry.Entry.TheVariants.{Pause};
ghost use Rattle.tide_model.specs.declared.entry.Event.{Event};
ghost use Rattle.tide_heap.specs.steps.Plays.{no_layout};
ghost use Rattle.tide_heap.specs.Turns.{noted, seating, spent, ticket_of};
ghost use Rattle.tide_table.specs.Plays.{has_frozen, has_read, has_stored, has_entered, has_entered_visits, has_opened};

use atomic_table::{Join, Play, Split};
use std::marker::{Brand, PhantomData};
use tide_heap::View;

/// What a step of the collector is on. Each call picks it.
pub(crate) trait Choice {
    ghost layout: { model };

    ghost shapes: { ShapeLists };

    ghost event: { Event };

    ghost number: { ℕ };
}

impl Choice for Brand {
    ghost layout = { no_layout };

    ghost shapes = { [] };

    ghost event = { plain (Pause 0) };

    ghost number = { 0 };
}

pub(crate) struct Learns;

impl Join<View> for Learns {
    ghost both = { noted };

    ghost spent = { spent };
}

pub(crate) struct Seats<J> {
    of: PhantomData<J>,
}

impl<J: Choice> Split<View> for Seats<J> {
    ghost left = { seating J.number };

    ghost right = { λ v. newcomer J.number };
}

pub(crate) struct Tickets;

impl Split<View> for Tickets {
    ghost left = { λ v. v };

    ghost right = { ticket_of };
}

pub(crate) struct Freezing<J> {
    of: PhantomData<J>,
}

impl<J: Choice> Play<(), View> for Freezing<J> {
    ghost then = { has_frozen J.layout J.shapes };
}

pub(crate) struct Reads;

impl Play<(), View> for Reads {
    ghost then = { has_read };
}

pub(crate) struct Stores;

impl Play<(), View> for Stores {
    ghost then = { has_stored };
}

pub(crate) struct Enters<J> {
    of: PhantomData<J>,
}

impl<J: Choice> Play<(), View> for Enters<J> {
    ghost then = { has_entered J.event };
}

pub(crate) struct EntersVisits<J> {
    of: PhantomData<J>,
}

impl<J: Choice> Play<(), View> for EntersVisits<J> {
    ghost then = { has_entered_visits J.number J.event };
}

pub(crate) struct Opens<J> {
    of: PhantomData<J>,
}

impl<J: Choice> Play<(), View> for Opens<J> {
    ghost then = { has_opened J.layout J.number };
}
