//! What a call is to do: its mutator's own words are loaded, and an action is planned. It carries out none.
ghost use Rattle.std.specs.Prelude.{◌≡◌, ◌<◌, ◌+◌, ◌%◌, ◌^◌, [], length, true, false};
ghost use Rattle.tide_heap.specs.tide_core.machine.May.{IsBetweenCalls};
ghost use Rattle.tide_heap.specs.tide_core.machine.kinds.TakeFree.{TakesCell};
ghost use Rattle.tide_model.specs.Lawful.{FitsLayout};
ghost use Rattle.tide_model.specs.declared.op.Op.TheVariants.{Retire};
ghost use Rattle.tide_mutator.specs.calls.Owning.{unread};
ghost use Rattle.tide_mutator.specs.owed.Acting.{MayAct};
ghost use Rattle.tide_mutator.specs.owed.Standing.{claims_of};

use crate::calls::own::OwnPass;
use crate::owed::Call;
use tide_heap::{Action, Claims, Heap, Planner};
use tide_shape::ShapeTable;

/// Decides what a call of a mutator with these claims is to do. The first step of a call is a load of its call word: of
/// any step its mutator knows that references are live, and that the words read as some state.
#[inline(always)]
pub(crate) fn decide<S: ShapeTable>(
    own: &mut OwnPass,
    heap: &Heap<S>,
    claims: &Claims,
    call: Call,
) -> Action
    requires own { own.old.pass.seat.table_id ≡ heap.now.table.shared.table_id }
    requires mutator { own.old.pass.seat.me.0.who < heap.now.key.layout.mutators }
    requires runs { own.old.pass.seat.me.0.runs ≡ true }
    requires stays { own.old.pass.seat.me.0.left ≡ false }
    requires between { IsBetweenCalls own.old.pass.seat.me.0 }
    requires claims { claims.now ≡ claims_of own.old.pass.seat.me.0 }
    requires fits { FitsLayout heap.now.key.layout call.op }
    requires few { TakesCell call.op → own.old.pass.seat.me.0.born + 1 < 2 ^ 32 }
    requires bare { call.op ≡ Retire → claims_of own.old.pass.seat.me.0 ≡ [] }
    requires counts { call.number ≡ (length own.old.pass.seat.me.0.mine + 1) % 2 ^ 64 }
    ensures same_view { (own.new.pass.seat.table_id ≡ own.old.pass.seat.table_id)
        × (own.new.pass.seat.id ≡ own.old.pass.seat.id)
        × (unread own.new.pass.seat.me.0 ≡ unread own.old.pass.seat.me.0) }
    ensures may { MayAct S.lists heap.now own.new.pass call result }
{
    own.pass.load_call(heap);
    let who = own.pass.who();
    let mutators = u32::from(heap.layout().mutators());
    prove!(who < mutators);
    let planner = Planner::new(who, heap.layout(), heap.shapes(), claims);
    planner.plan_call(own, heap, call.op)
}
