//! Command lines that were written out, as laws. It has no code.
ghost use Rattle.tide_options.specs.Rows.{Asked, Mistaken};

/// What some command lines ask for.
fn asked()
    ensures { Asked }
{}

/// Each kind of mistake.
fn mistaken()
    ensures { Mistaken }
{}
