//! `Participant`: who acts in a part, with its ticket before and its note after. It knows no other.
ghost use Rattle.std.specs.Prelude.{◌≡◌, ◌<◌, ◌+◌, ℕ, [], IfOk, None, Some};
ghost use Rattle.tide_heap.specs.tide_core.machine.Frozen.{newcomer};
ghost use Rattle.tide_heap.specs.tide_core.machine.World.{first_visitor};
ghost use Rattle.tide_shape.specs.Lists.{lists_of};
ghost use Rattle.tide_threads.specs.Acting.{cursor_of, is_busy};
ghost use Rattle.tide_threads.specs.Fresh.{IsFresh};
ghost use Rattle.tide_threads.specs.Playing.{DidPart, HasMadePart, MayBeginPart, MayPlay};

use crate::calling::{CallingMutator, Played};
use crate::marking::CountingVisitor;
use crate::worker::Worker;
use tide_heap::GreyList;
use tide_model::{Memory, Turnstile};
use tide_periods::ScriptCursor;
use tide_shape::Shapes;
use tide_table::{Heap, Note, Pass, Ticket};

/// A mutator or a visitor. Between two parts it has neither a ticket nor a note.
#[derive(Drop)]
pub struct Participant {
    pub(crate) worker: Worker,
    pub(crate) ticket: Option<Ticket>,
    pub(crate) note: Option<Note>,
    /// Whether it stopped before its share of the last part was over.
    pub(crate) outcome: Result<bool, Memory>,
}

impl Participant {
    /// A participant that has taken no part yet.
    fn new(worker: Worker) -> Participant
        ensures worker { result.worker ≡ worker }
        ensures nothing { (result.ticket ≡ None) × (result.note ≡ None) }
    {
        Participant {
            worker,
            ticket: None,
            note: None,
            outcome: Ok(false),
        }
    }

    /// The mutator with this pass, which has made no call yet, and its cursor.
    pub(crate) fn of_mutator(pass: Pass, cursor: ScriptCursor) -> Participant
        requires newcomer { pass.seat.me.0 ≡ newcomer cursor.who }
        ensures fresh { (mutators cells : ℕ) → cursor.who < mutators →
            IsFresh pass.seat.table_id mutators cells cursor.who result }
        ensures cursor { cursor_of result.worker ≡ Some cursor }
    {
        Participant::new(Worker::Mutator(CallingMutator::new(pass, cursor)))
    }

    /// The visitor with this pass and this stack, which has visited nothing yet.
    pub(crate) fn of_visitor(pass: Pass, stack: GreyList) -> Participant
        requires newcomer { (who : ℕ) × (pass.seat.me.0 ≡ newcomer who) }
        requires empty { stack.cells ≡ [] }
        ensures fresh { (mutators visitor : ℕ) → pass.seat.me.0 ≡ newcomer (first_visitor + visitor) →
            IsFresh pass.seat.table_id mutators stack.cap (mutators + visitor) result }
        ensures no_cursor { cursor_of result.worker ≡ None }
    {
        Participant::new(Worker::Visitor(CountingVisitor::new(pass, stack)))
    }

    /// Whether it has something to do with its ticket.
    pub(crate) fn is_busy(&self) -> bool
        ensures { result ≡ is_busy self.now }
    {
        match &self.ticket {
            Some(ticket) => self.worker.is_busy_with(ticket),
            None => false,
        }
    }

    /// Who acted, when all is run.
    pub(crate) fn into_worker(self) -> Worker
        ensures { result ≡ self.worker }
    {
        let Participant {
            worker,
            ticket: _,
            note: _,
            outcome: _,
        } = self;
        worker
    }

    /// Its part with this ticket.
    fn play<T: Turnstile>(
        &mut self,
        heap: &Heap<Shapes>,
        turnstile: &T,
        ticket: Ticket,
    ) -> Result<bool, Memory>
        requires ready { MayBeginPart heap.now.table.shared.table_id heap.now.key.layout (lists_of heap.now.key.shapes)
            ticket self.old.worker }
        ensures made { IfOk result (HasMadePart heap.now.table.shared.table_id heap.now.key.layout
            (lists_of heap.now.key.shapes) ticket.seat.me.0 self.old.worker self.new) }
        ensures ticket { self.new.ticket ≡ self.old.ticket }
    {
        let Played { ended, note } = self.worker.play(heap, turnstile, ticket)?;
        self.note = Some(note);
        Ok(ended)
    }

    /// Its part: nothing, where it has no ticket.
    pub(crate) fn play_part<T: Turnstile>(&mut self, heap: &Heap<Shapes>, turnstile: &T)
        requires may { MayPlay heap.now.table.shared.table_id heap.now.key.layout (lists_of heap.now.key.shapes)
            self.old }
        ensures did { DidPart heap.now.table.shared.table_id heap.now.key.layout (lists_of heap.now.key.shapes)
            self.old self.new }
    {
        let Some(ticket) = self.ticket.take() else {
            self.outcome = Ok(false);
            return;
        };
        self.outcome = self.play(heap, turnstile, ticket);
    }
}
