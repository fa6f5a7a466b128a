//! Examples of what the definitions of operations, numbers and keys say, as laws. It has no code.
ghost use Rattle.tide_text.specs.work.Examples.{KeyNames, Limits, Numbers, OpTexts};

/// Which texts are operations.
fn op_texts()
    ensures { OpTexts }
{}

/// Which words are numbers.
fn numbers()
    ensures { Numbers }
{}

/// Which words are keys.
fn key_names()
    ensures { KeyNames }
{}

/// The limits that definitions call by name.
fn limits()
    ensures { Limits }
{}
