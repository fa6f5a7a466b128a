//! `Keeper`: who freezes a standing heap between two parts. It takes no note and opens no part.
ghost use Rattle.std.specs.Prelude.{◌≡◌, [], false, replicate};
ghost use Rattle.tide_table.specs.tide_statistics.Sums.{HasSummed};

use tide_posts::{Books, HandedIn, HeapName, KeeperSeat, Ticket};
use tide_table::{Collector, CycleSums};

/// Who freezes a standing heap and opens its parts.
#[derive(Drop)]
pub struct Keeper {
    pub(crate) collector: Collector,
    pub(crate) seat: KeeperSeat<Ticket, HandedIn, HeapName>,
    pub(crate) books: Books,
    /// What is told of the cycles so far, all together, up to where the open part was opened.
    pub(crate) sums: CycleSums,
    /// The notes of the open part are in of all places below this one.
    pub(crate) next: usize,
    /// One of them says that its mutator's last call ended its share.
    pub(crate) ended: bool,
    /// Which mutators have left for good.
    pub(crate) left: [bool; 16],
    /// Which mutators' notes say that they stopped early in the open part.
    pub(crate) early: [bool; 16],
    /// Some mutator has stopped early, in the open part or in one before.
    pub(crate) stopped: bool,
}

impl Keeper {
    /// A keeper that has opened no part yet.
    pub(crate) fn new(
        collector: Collector,
        seat: KeeperSeat<Ticket, HandedIn, HeapName>,
        books: Books,
    ) -> Keeper
        ensures collector { result.collector ≡ collector }
        ensures seat { result.seat ≡ seat }
        ensures books { result.books ≡ books }
        ensures sums { HasSummed [] result.sums }
        ensures nothing { (result.next ≡ 0) × (result.ended ≡ false) × (result.left ≡ replicate 16 false) }
        ensures nobody { (result.early ≡ replicate 16 false) × (result.stopped ≡ false) }
    {
        Keeper {
            collector,
            seat,
            books,
            sums: CycleSums::new(),
            next: 0,
            ended: false,
            left: [false; 16],
            early: [false; 16],
            stopped: false,
        }
    }

    /// Whether some mutator has stopped early in a part so far, as far as notes tell that are in: it rested, or came
    /// early to a freeze.
    pub fn has_stopped(&self) -> bool
        ensures { result ≡ self.now.stopped }
    {
        self.stopped
    }

    /// What is told of the cycles so far, all together. While a part is open that is so up to where it was opened.
    pub fn sums(&self) -> CycleSums
        ensures { result ≡ self.now.sums }
    {
        self.sums
    }
}
