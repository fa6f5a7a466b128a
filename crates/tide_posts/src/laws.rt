//! What holds of every history of whole periods, as a function that only promises it.
ghost use Rattle.tide_posts.specs.FullCycles.{FullCyclesRun};

/// Behind each call that asked for a cycle, or was refused for room a first time, a full cycle runs before the next
/// part is opened.
pub fn full_cycles_run()
    ensures ran { FullCyclesRun }
{}
