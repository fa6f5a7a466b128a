//! What a run asks of the store that it stands on.
ghost use Rattle.std.specs.Prelude.{◌≡◌, ◌↔◌, ℕ, ◌<◌, Bool, Option, List, true, false, [], length, slice_index_or, IfOk};
ghost use Rattle.tide_model.specs.Answer.{IsAnswer};
ghost use Rattle.tide_model.specs.Applied.{after_call};
ghost use Rattle.tide_model.specs.Cycle.{live_count, HasDead};
ghost use Rattle.tide_model.specs.Graph.{no_cell};
ghost use Rattle.tide_model.specs.History.{after_end, swept_all};
ghost use Rattle.tide_model.specs.Layout.{IsBlockOf};
ghost use Rattle.tide_model.specs.Lawful.{FitsLayout};
ghost use Rattle.tide_model.specs.Room.{IsFullBlock};
ghost use Rattle.tide_model.specs.State.{State};
ghost use Rattle.tide_plain.specs.collect.Collecting.{IsDeadWithin, IsFreed};
ghost use Rattle.tide_periods.specs.Store.{Setting, blocks_in};

use std::alloc::Global;
use tide_model::{Memory, Op, Refusal, Reply};

/// A store that can run a whole cycle, and none in parts.
pub trait Store {
    /// What never changes.
    ghost setting: { Self → Setting };

    ghost state: { Self → State };

    /// The array that the last call took.
    ghost took: { Self → Option ℕ };

    /// Of which blocks the last collection swept something.
    ghost sweeps: { Self → List Bool };

    /// Answers an operation of mutator `who`, which hasn't retired.
    fn call(&mut self, who: u32, op: Op) -> Reply
        requires mutator { who < (setting self.old).layout.mutators }
        requires active { (state self.old).active who ≡ true }
        requires fits { FitsLayout (setting self.old).layout op }
        requires released { op ≡ Op.Retire → (state self.old).claims who ≡ [] }
        ensures answers { IsAnswer (setting self.old).layout (setting self.old).shapes (state self.old)
            who op result (took self.new) }
        ensures leaves { state self.new ≡ after_call (state self.old) who op result (took self.new) }
        ensures room { (class : ℕ) → result ≡ Reply.Refused (Refusal.Full class) →
            (block : ℕ) → IsBlockOf (setting self.old).layout class block →
            IsFullBlock (setting self.old).layout (state self.old) block }
        ensures setting { setting self.new ≡ setting self.old };

    /// The array that the last `call` took, if it took one.
    fn taken(&self) -> Option<u32>
        ensures { result ≡ took self.now };

    /// Frees exactly the live cells that nothing retains, sweeps all blocks, and gives the freed ids in rising order.
    fn collect(&mut self, alloc: Global) -> Result<Vec<u32>, Memory>
        ensures freed { IfOk result (λ freed. IsFreed (state self.old) no_cell freed.items) }
        ensures leaves { IfOk result (λ freed. state self.new ≡ swept_all (after_end (state self.old) freed.items)) }
        ensures swept { IfOk result (λ freed. (block : ℕ) → block < blocks_in (setting self.old) →
            (slice_index_or (sweeps self.new) block false ≡ true)
            ↔ HasDead (setting self.old).layout (after_end (state self.old) freed.items) block) }
        ensures within { IfOk result (λ freed.
            IsDeadWithin (setting self.old).layout (after_end (state self.old) freed.items)) }
        ensures setting { setting self.new ≡ setting self.old };

    /// How many cells are live.
    fn live(&self) -> u32
        ensures { result ≡ live_count (setting self.now).layout (state self.now) };

    /// How many cells a mutator claims.
    fn claims(&self, who: u32) -> u32
        requires { who < (setting self.now).layout.mutators }
        ensures { result ≡ length ((state self.now).claims who) };

    /// Whether the last `collect` that was answered Ok swept a dead cell or array of the block.
    fn swept(&self, block: u32) -> bool
        requires { block < blocks_in (setting self.now) }
        ensures { result ≡ slice_index_or (sweeps self.now) block false };
}
