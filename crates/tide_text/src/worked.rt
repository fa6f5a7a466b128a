//! What the definitions of lines compute to, for lines of real runs.
ghost use Rattle.tide_text.specs.Worked.{WorkedCalls, WorkedFaults, WorkedFrame, WorkedRefusals, WorkedSummaries};

fn worked_lines()
    ensures calls { WorkedCalls }
    ensures refusals { WorkedRefusals }
    ensures frame { WorkedFrame }
    ensures faults { WorkedFaults }
    ensures summaries { WorkedSummaries }
{}
