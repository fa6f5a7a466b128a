//! What a mutator does in a part: its calls, and loads of its own words, of handles, of a slot and a claim. It knows no
//! ticket and no note.
ghost use Rattle.std.specs.Prelude.{◌≡◌, ◌<◌, [], true, false};
ghost use Rattle.check_table.specs.callers.Working.{put_calls, IsReady, Stays};
ghost use Rattle.check_table.specs.Working.{HasAll, HasLooked};

use crate::callers::{put_strong, put_weak, set_register};
use tide_table::{Heap, HeapShapes, Pass};

/// The words that a mutator found: its register, its call word, two handles, a slot and a claim.
#[derive(Clone, Copy)]
pub struct LoadedWords {
    pub register: u64,
    pub calls: u64,
    pub strong: u64,
    pub weak: u64,
    pub slot: u64,
    pub claim: u64,
}

/// Looks at its own words, at the handles, and at the first slot and the claim of the first cell, without a call.
pub fn look<S: HeapShapes>(heap: &Heap<S>, pass: &mut Pass) -> LoadedWords
    requires own { pass.old.seat.table_id ≡ heap.now.table.shared.table_id }
    requires runs { pass.old.seat.me.0.runs ≡ true }
    requires mutator { pass.old.seat.me.0.who < heap.now.key.layout.mutators }
    requires has { HasAll heap.now.key.layout }
    ensures same { pass.new.seat.table_id ≡ pass.old.seat.table_id }
    ensures looked { HasLooked pass.old.seat.me.0 pass.new.seat.me.0 }
{
    LoadedWords {
        register: pass.load_register(heap, 0),
        calls: pass.load_call(heap),
        strong: pass.load_strong(heap, 0, None),
        weak: pass.load_weak(heap, 0, None),
        slot: pass.load_link(heap, 0, 0, None),
        claim: pass.load_claim(heap, 0, None),
    }
}

/// Sets a register, and puts it into a strong and a weak handle.
pub fn put<S: HeapShapes>(heap: &Heap<S>, pass: &mut Pass)
    requires own { pass.old.seat.table_id ≡ heap.now.table.shared.table_id }
    requires ready { IsReady heap.now.key.layout pass.old.seat.me.0 [] false }
    requires has { HasAll heap.now.key.layout }
    ensures same { pass.new.seat.table_id ≡ pass.old.seat.table_id }
    ensures ready { IsReady heap.now.key.layout pass.new.seat.me.0 (put_calls pass.old.seat.me.0.who) false }
    ensures stays { Stays pass.old.seat.me.0 pass.new.seat.me.0 }
{
    set_register(heap, pass);
    put_strong(heap, pass);
    put_weak(heap, pass);
}
