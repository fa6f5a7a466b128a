//! What one of the two mutators does in its thread: a part, from its ticket to its note.
ghost use Rattle.embed_heap.specs.two_mutators.Working.{HasWorked, MayWork};
ghost use Rattle.std.specs.Prelude.{◌≡◌};
ghost use Rattle.tide.specs.tide_mutator.calls.Viewed.{table_of, view_of};

use tide::{FreePass, Heap, Mutator, Note, Op, Reply, ShapeTable, Ticket};

/// What a mutator was answered.
#[derive(Clone, Copy)]
pub struct Replies {
    /// What it read from the cell that it had allocated.
    pub seen: Option<Reply>,
    /// To an operation on a register that no mutator has.
    pub foreign: Option<Reply>,
}

/// What a mutator found, and its note of the part.
#[derive(Drop)]
pub struct RepliesAndNote {
    pub found: Replies,
    pub note: Note,
}

/// Begins a part, sets a register to 7, takes a cell, stores the number in its first slot and reads it again; lets go
/// of the cell, retires, and stops. Two of its operations are tried, as one would be that came from outside: one that
/// fits the layout, and one that doesn't.
pub fn store_and_read<S: ShapeTable>(
    heap: &Heap<S>,
    mut mutator: Mutator,
    ticket: Ticket,
) -> RepliesAndNote
    requires own { table_of mutator ≡ heap.now.table.shared.table_id }
    requires of_heap { ticket.seat.table_id ≡ heap.now.table.shared.table_id }
    requires may { MayWork heap.now.key.layout (view_of mutator) ticket.seat.me.0 }
    ensures of_heap { result.note.seat.table_id ≡ heap.now.table.shared.table_id }
    ensures worked { HasWorked (view_of mutator) ticket.seat.me.0 result.note.seat.me.0 }
{
    let turnstile = &FreePass;
    mutator.begin(heap, ticket);
    mutator.call(heap, Op::Set { dst: 0, n: 7 }, turnstile);
    mutator.call(heap, Op::Alloc { dst: 1, class: 0 }, turnstile);
    mutator.call(
        heap,
        Op::Put {
            src: 1,
            slot: 0,
            val: 0,
        },
        turnstile,
    );
    let foreign = mutator.try_call(heap, Op::Set { dst: 16, n: 9 }, turnstile);
    let seen = mutator.try_call(
        heap,
        Op::Get {
            dst: 0,
            src: 1,
            slot: 0,
        },
        turnstile,
    );
    mutator.call(heap, Op::Drop { dst: 1 }, turnstile);
    mutator.retire(heap, turnstile);
    RepliesAndNote {
        found: Replies { seen, foreign },
        note: mutator.stop(heap),
    }
}
