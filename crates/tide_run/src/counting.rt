//! Counting the calls of a run for its summary.
ghost use Rattle.std.specs.Prelude.{ℕ, ◌≡◌, ◌++◌, List, map, IfOk, OnOk};
ghost use Rattle.tide_model.specs.declared.op.Reply.{Reply};
ghost use Rattle.tide_workload.specs.Words.{counts_of, counts_with};

use crate::running::Outcome;
use tide_model::Memory;
use tide_periods::Answered;
use tide_workload::Counts;

/// Counts the reply of each of a mutator's calls.
fn count_calls(counts: &mut Counts, calls: &[Answered]) -> Result<(), Memory>
    ensures { OnOk result ((mutators live : ℕ) → (replies : List Reply) → counts.old ≡ counts_with mutators replies live →
        counts.new ≡ counts_with mutators (replies ++ map (λ call. call.reply) calls.now) live) }
{
    for call in calls {
        counts.add(call.reply)?;
    }
    Ok(())
}

/// How many calls a run made, and how they were answered. `Err` where there are more than a `u32` can count.
pub fn counts_of(outcome: &Outcome) -> Result<Counts, Memory>
    ensures { IfOk result (λ counts. counts ≡ counts_of outcome.now.layout outcome.now.history) }
{
    let mut counts = Counts::new(outcome.mutators(), outcome.live());
    for m in 0..outcome.mutators() {
        count_calls(&mut counts, outcome.calls(m))?;
    }
    Ok(counts)
}
