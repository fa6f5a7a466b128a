//! How what mutators did at the same time makes a part, as a function that only promises it.
ghost use Rattle.tide_periods.specs.Laws.{SharesMakePart};

/// Where each mutator made its share of an opened part, or had retired, the part was run, and the cursors know their
/// mutators.
pub fn shares_make_a_part()
    ensures part { SharesMakePart }
{}
