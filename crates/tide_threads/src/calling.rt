//! `CallingMutator`: a mutator with what it asks for, and its share of a part.
ghost use Rattle.std.specs.Prelude.{◌≡◌, ◌<◌, false, IfOk};
ghost use Rattle.tide_heap.specs.tide_core.machine.Frozen.{newcomer};
ghost use Rattle.tide_model.specs.Prefix.{IsPrefix};
ghost use Rattle.tide_mutator.specs.calls.Viewed.{table_of, view_of};
ghost use Rattle.tide_shape.specs.Lists.{lists_of};
ghost use Rattle.tide_threads.specs.Parked.{HasBegunPart};
ghost use Rattle.tide_threads.specs.Playing.{HasMadeShare, MayBeginShare};

use crate::share::make_share;
use tide_model::{Memory, Turnstile};
use tide_mutator::Mutator;
use tide_periods::ScriptCursor;
use tide_shape::Shapes;
use tide_table::{Heap, Note, Pass, Ticket};

/// A part that was played: whether it was ended before its share was over, and the note of it.
#[derive(Drop)]
pub(crate) struct Played {
    pub(crate) ended: bool,
    pub(crate) note: Note,
}

/// A mutator with its cursor, which says what it asks for.
#[derive(Drop)]
pub struct CallingMutator {
    pub(crate) mutator: Mutator,
    pub(crate) cursor: ScriptCursor,
}

/// Begins a part with its ticket.
fn begin(mutator: &mut Mutator, heap: &Heap<Shapes>, ticket: Ticket)
    requires own { table_of mutator.old ≡ heap.now.table.shared.table_id }
    requires of_heap { ticket.seat.table_id ≡ heap.now.table.shared.table_id }
    requires rests { (view_of mutator.old).runs ≡ false }
    requires stays { (view_of mutator.old).left ≡ false }
    requires period { (view_of mutator.old).period < ticket.seat.me.0.period }
    requires begun { (view_of mutator.old).begun < ticket.seat.me.0.period }
    ensures own { table_of mutator.new ≡ table_of mutator.old }
    ensures begun { HasBegunPart ticket.seat.me.0 (view_of mutator.old) (view_of mutator.new) }
    ensures told { IsPrefix ticket.seat.me.0.seen (view_of mutator.new).seen }
    ensures mine { (view_of mutator.new).mine ≡ (view_of mutator.old).mine }
{
    mutator.begin(heap, ticket);
}

impl CallingMutator {
    /// The mutator with this pass, which has made no call yet, and its cursor.
    pub(crate) fn new(pass: Pass, cursor: ScriptCursor) -> CallingMutator
        requires newcomer { pass.seat.me.0 ≡ newcomer cursor.who }
        ensures table { table_of result.mutator ≡ pass.seat.table_id }
        ensures view { view_of result.mutator ≡ newcomer cursor.who }
        ensures cursor { result.cursor ≡ cursor }
    {
        CallingMutator {
            mutator: Mutator::new(pass),
            cursor,
        }
    }

    /// Its cursor, when all is run.
    pub(crate) fn into_cursor(self) -> ScriptCursor
        ensures { result ≡ self.cursor }
    {
        let CallingMutator { mutator: _, cursor } = self;
        cursor
    }

    /// Begins a part with its ticket, makes its share of calls, and stops.
    pub(crate) fn play<T: Turnstile>(
        &mut self,
        heap: &Heap<Shapes>,
        turnstile: &T,
        ticket: Ticket,
    ) -> Result<Played, Memory>
        requires ready { MayBeginShare heap.now.table.shared.table_id heap.now.key.layout (lists_of heap.now.key.shapes)
            ticket self.old }
        ensures made { IfOk result (λ played. HasMadeShare heap.now.table.shared.table_id heap.now.key.layout
            (lists_of heap.now.key.shapes) ticket.seat.me.0 self.old self.new played.note played.ended) }
    {
        let run = ticket.run();
        begin(&mut self.mutator, heap, ticket);
        let ended = make_share(&mut self.mutator, heap, turnstile, &mut self.cursor, run)?;
        let note = self.mutator.stop(heap);
        Ok(Played { ended, note })
    }
}
