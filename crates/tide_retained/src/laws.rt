//! The laws of snapshots: what a path shows, and of which words a snapshot may be taken. They have no code.
ghost use Rattle.tide_retained.specs.Holding.{ReadsNameShapes};
ghost use Rattle.tide_retained.specs.Path.{DistancesAreAlone, PathsRetain};

/// Of words that read as a state a snapshot may be taken.
pub fn states_may_be_taken()
    ensures { ReadsNameShapes }
{}

/// Paths lead to what is retained, and to nothing else, and a distance is the only one.
pub fn paths_retain()
    ensures retain { PathsRetain }
    ensures alone { DistancesAreAlone }
{}
