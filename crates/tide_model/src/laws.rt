//! What holds after every lawful history, and in every legal one, as functions that only promise it.
//!
//! A law is about the definitions of `specs/` and about no store: a store that shows its history lawful has it.
ghost use Rattle.tide_model.specs.Laws.{
  BeginningsAreLawful,
  CyclesAreExact,
  EdenEndsKeepOld,
  FourthCyclesAreFull,
  NoCellIsClaimedTwice,
  NoReferenceDangles,
  OldCellsAreLive,
  RefusalsChangeNothing,
};

/// No register of an active mutator, no handle, and no slot, property or pair of a live cell names a cell that isn't
/// live. Each claimed cell is live, and each live cell's array is live and its own.
pub fn no_reference_dangles()
    ensures references { NoReferenceDangles }
{}

/// A cell is claimed once, by one mutator.
pub fn no_cell_is_claimed_twice()
    ensures claims { NoCellIsClaimedTwice }
{}

/// A cell that was live right after the last end of a cycle is live still: an Eden cycle finds all of its old cells.
pub fn old_cells_are_live()
    ensures live { OldCellsAreLive }
{}

/// Each beginning of a lawful history is lawful.
pub fn beginnings_are_lawful()
    ensures beginnings { BeginningsAreLawful }
{}

/// A refused call changes nothing: the state right after it is the one right before it, whoever made it.
pub fn refusals_change_nothing()
    ensures unchanged { RefusalsChangeNothing }
{}

/// With a trigger of 0, each cycle of a legal history frees just the live cells that nothing retains at its end: it
/// begins and ends in one freeze, however many mutators and visitors there are.
pub fn cycles_are_exact()
    ensures exact { CyclesAreExact }
{}

/// Each fourth cycle of a scheduled history is a full one, which keeps no cell for its age alone.
pub fn fourth_cycles_are_full()
    ensures full { FourthCyclesAreFull }
{}

/// The end of an Eden cycle frees no old cell: none that was live right after the end before it.
pub fn eden_ends_keep_old_cells()
    ensures kept { EdenEndsKeepOld }
{}
