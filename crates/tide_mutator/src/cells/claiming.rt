//! Calls on claims.
ghost use Rattle.std.specs.Prelude.{◌≡◌};
ghost use Rattle.tide_heap.specs.tide_call.declared.action.Action.TheVariants.{Claim, Release};
ghost use Rattle.tide_mutator.specs.cells.Claiming.{held_or};
ghost use Rattle.tide_heap.specs.tide_call.Needed.{IsSomeClaim};
ghost use Rattle.tide_mutator.specs.owed.Acting.{HasAnswered, MayAct};

use crate::owed::Call;
use tide_heap::{Heap, HeapShapes, Pass, word_claim};
use tide_model::{Refusal, Reply};

/// Who holds the cell of a claim word refuses the call; where nobody does, it is answered otherwise.
fn held_or(otherwise: Reply, word: u64) -> Reply
    requires { IsSomeClaim word }
    ensures { result ≡ held_or otherwise word }
{
    match word_claim(word) {
        Some(by) => Reply::Refused(Refusal::Held { by }),
        None => otherwise,
    }
}

/// Claims a cell, unless a mutator does or the caller's claims are full.
pub fn claim<S: HeapShapes>(
    pass: &mut Pass,
    heap: &Heap<S>,
    call: Call,
    cell: u32,
    full: bool,
) -> Reply
    requires may { MayAct S.lists heap.now pass.old call (Claim cell full) }
    ensures answered { HasAnswered S.lists heap.now call (Claim cell full) result pass.old pass.new }
{
    if full {
        let word = pass.load_claim(heap, cell, Some(call.op));
        pass.store_call(heap, call.number, None);
        return held_or(Reply::Refused(Refusal::ClaimsFull), word);
    }
    let who = pass.who();
    // Of all that claim the cell one alone exchanges the 0, and each other finds that one's number, which refuses it.
    // From here on the cell's structure, array and elements are the claimer's alone to store (`RunningWordsRead`:
    // `owns`, tide_core/specs/machine/points/SettledWords.antt).
    let word = pass.take_claim(heap, cell, who, Some(call.op));
    pass.store_call(heap, call.number, None);
    held_or(Reply::Done, word)
}

/// Gives a claim back.
pub fn release<S: HeapShapes>(pass: &mut Pass, heap: &Heap<S>, call: Call, cell: u32) -> Reply
    requires may { MayAct S.lists heap.now pass.old call (Release cell) }
    ensures answered { HasAnswered S.lists heap.now call (Release cell) result pass.old pass.new }
{
    pass.release(heap, cell, Some(call.op));
    pass.store_call(heap, call.number, None);
    Reply::Done
}
