//! The collector's side, between two parts: the first part is opened, and each next one after a freeze.
ghost use Rattle.embed_heap.specs.visitor.Shares.{HasOpened, HasStarted, HaveStopped};
ghost use Rattle.std.specs.Prelude.{IfSome};

use crate::visitor::shared::Shared;

/// How many calls the mutator has in the first part.
const FIRST_RUN: u32 = 13;

impl Shared {
    /// Opens the first part.
    pub fn open(&mut self)
        requires started { HasStarted self.old }
        ensures opened { HasOpened self.new }
    {
        self.collector.open_first(&self.heap, FIRST_RUN);
    }

    /// Freezes the part in which both have stopped, enters what the visitor's note told, does what the schedule asks
    /// for, a whole full cycle where the freeze is forced, and opens the next part. `None` where memory is wanting, or
    /// no more part can be opened.
    pub fn next(&mut self, is_forced: bool) -> Option<()>
        requires stopped { HaveStopped self.old }
        ensures opened { IfSome result (λ _. HasOpened self.new) }
    {
        let Ok(()) = self
            .collector
            .next_part(&self.heap, &mut self.books, is_forced)
        else {
            return None;
        };
        Some(())
    }
}
