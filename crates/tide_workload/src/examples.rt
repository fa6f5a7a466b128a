//! Examples of what the definitions of reading say, as laws. It has no code.
ghost use Rattle.tide_workload.specs.Examples.{Documents, Limits, MutatorCounts, PathTexts};

/// How the keys of paths are numbered, and which texts are paths.
fn path_texts()
    ensures { PathTexts }
{}

/// What some documents read as.
fn documents()
    ensures { Documents }
{}

/// How many mutators a document may have.
fn mutator_counts()
    ensures { MutatorCounts }
{}

/// The limit that definitions call by name.
fn limits()
    ensures { Limits }
{}
