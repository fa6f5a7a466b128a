//! What a realm has its mutator do for it: a weak handle is set or read by way of a scratch register, which is emptied
//! again. It knows no reference and no job.
ghost use Rattle.std.specs.Prelude.{◌≡◌, ◌<◌, true};
ghost use Rattle.tide_model.specs.Caller.{MakesCall};
ghost use Rattle.tide_model.specs.Lawful.{FitsLayout};
ghost use Rattle.tide_model.specs.declared.op.Op.TheVariants.{WeakGet};
ghost use Rattle.tide_model.specs.declared.op.Reply.{Reply as ReplyIs};
ghost use Rattle.tide_model.specs.declared.val.Val.TheVariants.{Empty};
ghost use Rattle.tide_mutator.specs.calls.Viewed.{view_of};
ghost use Rattle.tide_weakref.specs.Calls.{IsRunning, is_of_realm};
ghost use Rattle.tide_weakref.specs.Setting.{SetsAlone, SetsNone};
ghost use Rattle.tide_weakref.specs.Stepping.{HasStepped, LetsStand, LetsStandApart, SameBut, TellsTargets, WasAimed, WasLoaded, cell_seen, held_in};

use tide_heap::Heap;
use tide_model::{Op, Reply, Turnstile, Val};
use tide_mutator::Mutator;
use tide_shape::ShapeTable;

/// The cell that a reply shows.
fn cell_seen(reply: Reply) -> Option<u32>
    ensures { result ≡ cell_seen reply }
{
    match reply {
        Reply::Seen(Val::Cell(cell)) => Some(cell),
        _ => None,
    }
}

/// Makes a call.
pub(crate) fn step<S: ShapeTable, T: Turnstile>(
    mutator: &mut Mutator,
    heap: &Heap<S>,
    op: Op,
    turnstile: &T,
) -> Reply
    requires running { IsRunning heap.now.table.shared.table_id heap.now.key.layout mutator.old }
    requires fits { FitsLayout heap.now.key.layout op }
    requires of_realm { is_of_realm op ≡ true }
    ensures stepped { HasStepped heap.now.table.shared.table_id heap.now.key.layout (S.lists heap.now.key.shapes)
        mutator.old mutator.new }
    ensures makes { MakesCall heap.now.key.layout (S.lists heap.now.key.shapes) (view_of mutator.old).who op result
        (view_of mutator.old).seen (view_of mutator.new).seen (view_of mutator.old).mine (view_of mutator.new).mine }
{
    mutator.call(heap, op, turnstile)
}

/// Empties the scratch register.
pub(crate) fn let_go<S: ShapeTable, T: Turnstile>(
    mutator: &mut Mutator,
    heap: &Heap<S>,
    scratch: u8,
    turnstile: &T,
)
    requires running { IsRunning heap.now.table.shared.table_id heap.now.key.layout mutator.old }
    requires register { scratch < heap.now.key.layout.registers }
    ensures stepped { HasStepped heap.now.table.shared.table_id heap.now.key.layout (S.lists heap.now.key.shapes)
        mutator.old mutator.new }
    ensures stands { LetsStand heap.now.key.layout (view_of mutator.old) (view_of mutator.new) }
    ensures emptied { held_in heap.now.key.layout (view_of mutator.new) scratch ≡ Empty }
    ensures others { SameBut heap.now.key.layout scratch (view_of mutator.old) (view_of mutator.new) }
    ensures targets { TellsTargets heap.now.key.layout (view_of mutator.old) (view_of mutator.new) }
    ensures sets { SetsNone (view_of mutator.old) (view_of mutator.new) }
{
    step(mutator, heap, Op::Drop { dst: scratch }, turnstile);
}

/// Reads a weak handle into the scratch register, and answers the cell that it holds.
pub(crate) fn load<S: ShapeTable, T: Turnstile>(
    mutator: &mut Mutator,
    heap: &Heap<S>,
    scratch: u8,
    handle: u16,
    turnstile: &T,
) -> Option<u32>
    requires running { IsRunning heap.now.table.shared.table_id heap.now.key.layout mutator.old }
    requires fits { (scratch < heap.now.key.layout.registers) × (handle < heap.now.key.layout.weak) }
    ensures stepped { HasStepped heap.now.table.shared.table_id heap.now.key.layout (S.lists heap.now.key.shapes)
        mutator.old mutator.new }
    ensures stands { LetsStand heap.now.key.layout (view_of mutator.old) (view_of mutator.new) }
    ensures others { SameBut heap.now.key.layout scratch (view_of mutator.old) (view_of mutator.new) }
    ensures makes { (reply : ReplyIs) × MakesCall heap.now.key.layout (S.lists heap.now.key.shapes)
        (view_of mutator.old).who (WeakGet scratch handle) reply (view_of mutator.old).seen (view_of mutator.new).seen
        (view_of mutator.old).mine (view_of mutator.new).mine }
    ensures read { WasLoaded heap.now.key.layout (view_of mutator.old) (view_of mutator.new) scratch handle result }
    ensures sets { SetsNone (view_of mutator.old) (view_of mutator.new) }
{
    let reply = step(
        mutator,
        heap,
        Op::WeakGet {
            dst: scratch,
            at: handle,
        },
        turnstile,
    );
    cell_seen(reply)
}

/// Sets a weak handle to what a register holds, reads it into the scratch register, and answers the cell that it holds.
pub(crate) fn aim<S: ShapeTable, T: Turnstile>(
    mutator: &mut Mutator,
    heap: &Heap<S>,
    scratch: u8,
    handle: u16,
    src: u8,
    turnstile: &T,
) -> Option<u32>
    requires running { IsRunning heap.now.table.shared.table_id heap.now.key.layout mutator.old }
    requires fits { (scratch < heap.now.key.layout.registers) × (handle < heap.now.key.layout.weak) }
    requires register { src < heap.now.key.layout.registers }
    ensures stepped { HasStepped heap.now.table.shared.table_id heap.now.key.layout (S.lists heap.now.key.shapes)
        mutator.old mutator.new }
    ensures stands { LetsStandApart heap.now.key.layout handle (view_of mutator.old) (view_of mutator.new) }
    ensures others { SameBut heap.now.key.layout scratch (view_of mutator.old) (view_of mutator.new) }
    ensures aimed { WasAimed heap.now.key.layout (view_of mutator.old) (view_of mutator.new) scratch handle src result }
    ensures sets { SetsAlone (view_of mutator.old) (view_of mutator.new) handle }
{
    step(
        mutator,
        heap,
        Op::WeakSet {
            at: handle,
            val: src,
        },
        turnstile,
    );
    load(mutator, heap, scratch, handle, turnstile)
}
