//! What a freeze leaves for the next opening, as functions that only promise it.
ghost use Rattle.tide_table.specs.Openings.{FreezesLeadToOpenings};
ghost use Rattle.tide_table.specs.VisitsEntered.{AllEnteredIsWave, EntriesCountVisits};

/// After a freeze of `tide_freeze` over the words of a frozen heap the next part may be opened, with as many calls as
/// the freeze answers.
pub fn freezes_lead_to_openings()
    ensures opens { FreezesLeadToOpenings }
{}

/// The visits that notes tell may be entered one after another, and once all are, the words meet the wave that marking,
/// an end and the next opening ask for.
pub fn entered_visits_lead_to_the_wave()
    ensures counts { EntriesCountVisits }
    ensures wave { AllEnteredIsWave }
{}
