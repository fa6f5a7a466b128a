//! Texts that are doctored: what a run's text tells is changed in one way, and must be refused then.

use crate::facts::facts::Facts;
use crate::facts::held::CELLS;
use tide_model::Reply;
use tide_run::{Answered, CycleLine};

/// A way to change what a text tells.
#[derive(Clone, Copy)]
pub enum Way {
    /// All births are of one cell.
    BearOne,
    /// The last freed cell isn't told.
    HideFreed,
    /// The first cycle keeps more cells than there are.
    KeepMore,
    /// The first mutator doesn't retire.
    StayOn,
    /// Its first call is answered as no such call is.
    AnswerAsked,
    /// One cell more lives at the end.
    LiveOneMore,
}

/// Each way.
pub const WAYS: [Way; 6] = [
    Way::BearOne,
    Way::HideFreed,
    Way::KeepMore,
    Way::StayOn,
    Way::AnswerAsked,
    Way::LiveOneMore,
];

/// Keeps more cells in the first cycle than there are, and answers whether there is one.
fn keep_more(cycles: &mut [CycleLine]) -> bool {
    match cycles {
        [line, ..] => {
            line.kept = CELLS + 1;
            true
        }
        [] => false,
    }
}

/// Gives the first of some calls another reply, and answers whether there is one.
fn answer_first(calls: &mut [Answered], reply: Reply) -> bool {
    match calls {
        [call, ..] => {
            call.reply = reply;
            true
        }
        [] => false,
    }
}

impl Facts {
    /// Gives each call that bore a cell the first of these cells, and answers whether that changed one.
    fn bear_one(&mut self) -> bool {
        let (mut one, mut changes) = (None, false);
        for calls in self.calls.as_mut_slice() {
            for call in calls.as_mut_slice() {
                if let Reply::Born(cell) = call.reply {
                    let first = one.unwrap_or(cell);
                    one = Some(first);
                    changes = changes || cell != first;
                    call.reply = Reply::Born(first);
                }
            }
        }
        changes
    }

    /// Takes the last call from the first mutator's, and answers whether there is one.
    fn stay_on(&mut self) -> bool {
        match self.calls.as_mut_slice() {
            [first, ..] => first.pop().is_some(),
            [] => false,
        }
    }

    /// Answers the first mutator's first call as one that asked for a cycle, and answers whether there is one.
    fn answer_asked(&mut self) -> bool {
        match self.calls.as_mut_slice() {
            [first, ..] => answer_first(first.as_mut_slice(), Reply::Asked),
            [] => false,
        }
    }

    /// Lets one cell more live at the end, which is another text in any case.
    fn live_one_more(&mut self) -> bool {
        self.live = self.live.wrapping_add(1);
        true
    }

    /// Changes what a text tells in this way, and answers whether it is another then.
    pub fn change(&mut self, way: Way) -> bool {
        match way {
            Way::BearOne => self.bear_one(),
            Way::HideFreed => self.freed.pop().is_some(),
            Way::KeepMore => keep_more(self.cycles.as_mut_slice()),
            Way::StayOn => self.stay_on(),
            Way::AnswerAsked => self.answer_asked(),
            Way::LiveOneMore => self.live_one_more(),
        }
    }
}
