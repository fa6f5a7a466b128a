//! What a call leaves, once its words are written, as functions that only promise it.
//!
//! A law speaks of the heap before a call, the heap after it, and the state before it. It knows no list of words and no
//! order in which they were stored.
ghost use Rattle.tide_call.specs.Laws.{CallsReadBack, ClaimsAreTold, HistoriesReadBack, MutatorsMayCall, ActionsAreCalls};

/// An active mutator may call wherever references are live: it meets what `Planner::plan_call` asks of the state.
pub fn mutators_may_call()
    ensures callers { MutatorsMayCall }
{}

/// Who carries out an action, by its words alone, makes its call. Of a claim the claim word tells what the action
/// leaves open.
pub fn actions_are_calls()
    ensures calls { ActionsAreCalls }
    ensures claims { ClaimsAreTold }
{}

/// The words of a call were written: they read as the state that it leaves, whatever the operation.
pub fn calls_read_back()
    ensures reading { CallsReadBack }
    ensures history { HistoriesReadBack }
{}
