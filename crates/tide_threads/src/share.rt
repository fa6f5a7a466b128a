//! A mutator's share of a part: its cursor is asked for each call, which is made and replied. It knows no other
//! mutator.
ghost use Rattle.std.specs.Prelude.{◌≡◌, ◌≤◌, ◌<◌, ◌+◌, [], IfOk, false};
ghost use Rattle.tide_mutator.specs.owed.Standing.{claims_of};
ghost use Rattle.tide_model.specs.Caller.{MakesCall};
ghost use Rattle.tide_model.specs.Lawful.{FitsLayout};
ghost use Rattle.tide_model.specs.Script.{is_retire};
ghost use Rattle.tide_model.specs.declared.op.Op.TheVariants.{Retire};
ghost use Rattle.tide_mutator.specs.calls.Viewed.{table_of, view_of};
ghost use Rattle.tide_periods.specs.Own.{IsCursorWithin, RanOwnShare};
ghost use Rattle.tide_shape.specs.Lists.{lists_of};
ghost use Rattle.tide_threads.specs.Works.{room_of, same_of, IsWorking};

use tide_model::{Memory, Op, Reply, Turnstile};
use tide_mutator::Mutator;
use tide_periods::ScriptCursor;
use tide_shape::Shapes;
use tide_table::Heap;

/// Makes a call, or retires, and answers it. The turnstile is met at each of its places.
fn make_call<T: Turnstile>(
    mutator: &mut Mutator,
    heap: &Heap<Shapes>,
    turnstile: &T,
    op: Op,
) -> Reply
    requires own { table_of mutator.old ≡ heap.now.table.shared.table_id }
    requires works { IsWorking heap.now.key.layout (view_of mutator.old) false }
    requires room { 0 < room_of (view_of mutator.old) }
    requires fits { FitsLayout heap.now.key.layout op }
    requires released { op ≡ Retire → claims_of (view_of mutator.old) ≡ [] }
    ensures makes { MakesCall heap.now.key.layout (lists_of heap.now.key.shapes) (view_of mutator.old).who op result
        (view_of mutator.old).seen (view_of mutator.new).seen (view_of mutator.old).mine (view_of mutator.new).mine }
    ensures same { same_of mutator.new ≡ same_of mutator.old }
    ensures works { IsWorking heap.now.key.layout (view_of mutator.new) (is_retire op) }
    ensures room { room_of (view_of mutator.old) ≤ room_of (view_of mutator.new) + 1 }
{
    match op {
        Op::Retire => mutator.retire(heap, turnstile),
        _ => mutator.call(heap, op, turnstile),
    }
}

/// Makes a mutator's calls of a part: `run`, or fewer where it retires or stops. Answers whether it stopped. It waits
/// for nobody but the turnstile, which each call meets at its places. Memory is wanted for the cursor's list of calls
/// alone.
pub fn make_share<T: Turnstile>(
    mutator: &mut Mutator,
    heap: &Heap<Shapes>,
    turnstile: &T,
    cursor: &mut ScriptCursor,
    run: u32,
) -> Result<bool, Memory>
    requires own { table_of mutator.old ≡ heap.now.table.shared.table_id }
    requires number { cursor.old.who ≡ (view_of mutator.old).who }
    requires works { IsWorking heap.now.key.layout (view_of mutator.old) cursor.old.retired }
    requires room { run ≤ room_of (view_of mutator.old) }
    requires knows { IsCursorWithin (record { layout = heap.now.key.layout; shapes = lists_of heap.now.key.shapes })
        (view_of mutator.old).seen (view_of mutator.old).mine cursor.old }
    ensures ran { IfOk result (RanOwnShare
        (record { layout = heap.now.key.layout; shapes = lists_of heap.now.key.shapes }) run
        (view_of mutator.old).seen (view_of mutator.new).seen (view_of mutator.old).mine (view_of mutator.new).mine
        cursor.old cursor.new) }
    ensures works { IfOk result (λ ended. IsWorking heap.now.key.layout (view_of mutator.new) cursor.new.retired) }
    ensures same { same_of mutator.new ≡ same_of mutator.old }
{
    for _made in 0..run {
        if cursor.has_retired() {
            return Ok(false);
        }
        let op = cursor.next(mutator.claims());
        let reply = make_call(mutator, heap, turnstile, op);
        if cursor.take(op, reply)? {
            return Ok(true);
        }
    }
    Ok(false)
}
