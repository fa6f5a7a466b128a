//! What each step of a participant tells, for proofs alone. No value of these types is made.
ghost use Rattle.std.specs.Prelude.{[], false, true};
ghost use Rattle.tide_core.specs.machine.Kind.{Kind, LoadCall};
ghost use Rattle.tide_core.specs.machine.kinds.Split.{split_view};
ghost use Rattle.tide_model.specs.Layout.{Layout as model};
ghost use Rattle.tide_model.specs.Refused.{ShapeLists};
ghost use Rattle.tide_heap.specs.steps.Plays.{has_followed, has_followed_some, has_begun, has_stopped, no_layout};
ghost use Rattle.tide_heap.specs.Turns.{heard_view, note_of, spent};

use atomic_table::{Join, Play, Split};
use std::marker::{Brand, PhantomData};
use tide_core::View;

/// Which step of a participant it is. Each call picks it.
pub(crate) trait Intent {
    ghost kind: { Kind };

    ghost layout: { model };

    ghost shapes: { ShapeLists };
}

impl Intent for Brand {
    ghost kind = { LoadCall };

    ghost layout = { no_layout };

    ghost shapes = { [] };
}

/// A participant's step that tells the word which it found.
pub(crate) struct Finds<J> {
    of: PhantomData<J>,
}

impl<J: Intent> Play<(), View> for Finds<J> {
    ghost then = { has_followed J.layout J.shapes J.kind };
}

/// A participant's store.
pub(crate) struct Puts<J> {
    of: PhantomData<J>,
}

impl<J: Intent> Play<(), View> for Puts<J> {
    ghost then = { has_followed_some J.layout J.shapes J.kind };
}

pub(crate) struct Begins;

impl Play<(), View> for Begins {
    ghost then = { has_begun };
}

pub(crate) struct Stops;

impl Play<(), View> for Stops {
    ghost then = { has_stopped };
}

pub(crate) struct Notes;

impl Split<View> for Notes {
    ghost left = { split_view };

    ghost right = { note_of false };
}

pub(crate) struct DoneNotes;

impl Split<View> for DoneNotes {
    ghost left = { split_view };

    ghost right = { note_of true };
}

pub(crate) struct Hears;

impl Join<View> for Hears {
    ghost both = { heard_view };

    ghost spent = { spent };
}
