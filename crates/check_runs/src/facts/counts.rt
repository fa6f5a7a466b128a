//! How much the judged texts had of what makes them hard.

use crate::facts::doctored::Way;
use crate::facts::facts::Facts;
use check_heap::{number_between, tell};
use std::alloc::{AllocError, Global};
use tide_model::{Op, Refusal, Reply};
use tide_run::Answered;

/// How much some texts had.
#[derive(Clone, Copy)]
pub struct Counts {
    calls: u64,
    claims: u64,
    /// Claims that were refused because another mutator holds the cell.
    held: u64,
    properties: u64,
    /// Properties for which a cell's array grew: its fifth and its ninth one, which are the keys 4 and 8 in
    /// `checks/data/facts/settings.txt`.
    grown: u64,
    /// Calls that were refused for room, of cells and of arrays.
    full: [u64; 2],
    cycles: u64,
    freed: u64,
    /// Races that visitors met: cells that mutators changed while a visitor scanned them.
    races: u64,
    /// How many texts each way changed.
    changed: [u64; 6],
}

impl Counts {
    pub fn new() -> Self {
        Counts {
            calls: 0,
            claims: 0,
            held: 0,
            properties: 0,
            grown: 0,
            full: [0; 2],
            cycles: 0,
            freed: 0,
            races: 0,
            changed: [0; 6],
        }
    }

    /// Counts an addition of this property.
    fn take_property(&mut self, key: u32) {
        self.properties = self.properties.saturating_add(1);
        if key == 4 || key == 8 {
            self.grown = self.grown.saturating_add(1);
        }
    }

    /// Counts a refusal of a mutator's call.
    fn take_refusal(&mut self, who: u32, refusal: Refusal) {
        match refusal {
            Refusal::Held { by } if by != who => self.held = self.held.saturating_add(1),
            Refusal::Full { class } => {
                let place = usize::from(class > 4);
                self.full[place] = self.full[place].saturating_add(1);
            }
            _ => {}
        }
    }

    /// Counts a mutator's call.
    fn take_call(&mut self, who: u32, call: Answered) {
        self.calls = self.calls.saturating_add(1);
        match (call.op, call.reply) {
            (_, Reply::Refused(refusal)) => self.take_refusal(who, refusal),
            (Op::Claim { .. }, _) => self.claims = self.claims.saturating_add(1),
            (Op::Add { key, .. }, _) => self.take_property(key),
            _ => {}
        }
    }

    /// Counts what a text tells.
    pub fn take(&mut self, told: &Facts) {
        let mut who = 0u32;
        for calls in told.calls.as_slice() {
            for call in calls.as_slice() {
                self.take_call(who, *call);
            }
            who = who.saturating_add(1);
        }
        self.cycles = self.cycles.saturating_add(told.cycles.len() as u64);
        self.freed = self.freed.saturating_add(told.freed.len() as u64);
    }

    /// Counts the races that the visitors of a run met.
    pub fn take_races(&mut self, races: u64) {
        self.races = self.races.saturating_add(races);
    }

    /// Counts a text that was changed in this way.
    pub fn take_changed(&mut self, way: Way) {
        let place = way as usize;
        self.changed[place] = self.changed[place].saturating_add(1);
    }

    /// Whether some text was changed in each of the ways.
    pub fn has_each_way(&self) -> bool {
        !self.changed.contains(&0)
    }

    /// The numbers, each with what stands behind it in a line.
    fn numbers(&self) -> [(u64, &'static str); 10] {
        let [cells, arrays] = self.full;
        [
            (self.calls, " calls, "),
            (self.claims, " claims, "),
            (self.held, " refused as another's, "),
            (self.properties, " properties, "),
            (self.grown, " by growth, "),
            (cells, " calls refused for cells, "),
            (arrays, " for arrays, "),
            (self.cycles, " cycles, "),
            (self.freed, " cells freed, "),
            (self.races, " races of visitors"),
        ]
    }

    /// A line of all.
    fn text(&self, alloc: Global) -> Result<String, AllocError> {
        let mut line = String::new(alloc);
        for (number, behind) in &self.numbers() {
            let one = number_between(alloc, "", *number, behind)?;
            line.push_str(one.as_str())?;
        }
        Ok(line)
    }

    /// Tells a line of all.
    pub fn tell(&self, alloc: Global, findings: &mut String) -> Result<(), AllocError> {
        let line = self.text(alloc)?;
        tell(findings, &[line.as_str()])
    }
}
