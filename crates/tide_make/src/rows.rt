//! Rounds that were worked out by hand, as laws. It has no code.
ghost use Rattle.tide_make.specs.Rows.{FirstRounds, ChainEnds, Seeds, Sizes};

/// What is drawn, round by round.
fn seeds()
    ensures { Seeds }
{}

/// The first rounds of some numbers.
fn first_rounds()
    ensures { FirstRounds }
{}

/// The rounds that end a chain.
fn chain_ends()
    ensures { ChainEnds }
{}

/// How large a workload is.
fn sizes()
    ensures { Sizes }
{}
