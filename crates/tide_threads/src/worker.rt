//! `Worker`: who acts in a part, a mutator with what it asks for, or a visitor. It knows no other.
ghost use Rattle.std.specs.Prelude.{◌≡◌, IfOk, Some};
ghost use Rattle.tide_shape.specs.Lists.{lists_of};
ghost use Rattle.tide_threads.specs.Acting.{cursor_of, has_left, is_busy_with, is_silent, races_of};
ghost use Rattle.tide_threads.specs.Playing.{HasDoneShare, MayBeginPart};

use crate::calling::{CallingMutator, Played};
use crate::marking::CountingVisitor;
use tide_model::{Memory, Turnstile};
use tide_periods::ScriptCursor;
use tide_shape::Shapes;
use tide_table::{Heap, Ticket};

/// Who acts in a part.
#[derive(Drop)]
pub enum Worker {
    /// It makes calls.
    Mutator(CallingMutator),
    /// It marks beside the mutators.
    Visitor(CountingVisitor),
}

impl Worker {
    /// Whether it has left for good, as a mutator that has retired.
    pub(crate) fn has_left(&self) -> bool
        ensures { result ≡ has_left self.now }
    {
        match self {
            Worker::Mutator(calling) => calling.cursor.has_retired(),
            Worker::Visitor(_) => false,
        }
    }

    /// Whether it makes no call any more, as a mutator that has retired, and as a visitor, which makes none.
    pub(crate) fn is_silent(&self) -> bool
        ensures { result ≡ is_silent self.now }
    {
        match self {
            Worker::Mutator(calling) => calling.cursor.has_retired(),
            Worker::Visitor(_) => true,
        }
    }

    /// Whether it has something to do in the part of this ticket: a mutator that hasn't retired has a call to make, and a
    /// visitor marks where a cycle does.
    pub(crate) fn is_busy_with(&self, ticket: &Ticket) -> bool
        ensures { result ≡ is_busy_with (Some ticket.now) self.now }
    {
        match self {
            Worker::Mutator(calling) => !calling.cursor.has_retired(),
            Worker::Visitor(_) => ticket.marking(),
        }
    }

    /// How many races it met in all parts.
    pub(crate) fn deferred(&self) -> u64
        ensures { result ≡ races_of self.now }
    {
        match self {
            Worker::Mutator(_) => 0,
            Worker::Visitor(counting) => counting.deferred,
        }
    }

    /// A mutator's cursor, when all is run.
    pub(crate) fn into_cursor(self) -> Option<ScriptCursor>
        ensures { result ≡ cursor_of self }
    {
        match self {
            Worker::Mutator(calling) => Some(calling.into_cursor()),
            Worker::Visitor(_) => None,
        }
    }

    /// Its part, from its ticket to its note.
    pub(crate) fn play<T: Turnstile>(
        &mut self,
        heap: &Heap<Shapes>,
        turnstile: &T,
        ticket: Ticket,
    ) -> Result<Played, Memory>
        requires ready { MayBeginPart heap.now.table.shared.table_id heap.now.key.layout (lists_of heap.now.key.shapes)
            ticket self.old }
        ensures did { IfOk result (λ played. HasDoneShare heap.now.table.shared.table_id heap.now.key.layout
            (lists_of heap.now.key.shapes) ticket.seat.me.0 self.old self.new played.note played.ended) }
    {
        match self {
            Worker::Mutator(calling) => calling.play(heap, turnstile, ticket),
            Worker::Visitor(counting) => {
                let note = counting.play(heap, turnstile, ticket);
                Ok(Played { ended: false, note })
            }
        }
    }
}
