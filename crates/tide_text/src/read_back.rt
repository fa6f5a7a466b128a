//! The law that joins printing and reading: what is printed of an operation can be pasted into a workload again. It has
//! no code.
ghost use Rattle.tide_text.specs.ReadBack.{AreReadBack};

/// The text of each operation that a workload may have reads as that operation.
pub fn texts_read_back()
    ensures { AreReadBack }
{}
