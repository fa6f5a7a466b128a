//! `Stats`: what a run leaves in numbers, and what its keeper counts for them.
ghost use Rattle.std.specs.Prelude.{ℕ, ◌≡◌, ◌+◌, ◌*◌, ◌<◌, ◌≤◌, [], slice_index};
ghost use Rattle.tide_server.specs.tide_heap.tide_layout.Region.{word_count};
ghost use Rattle.tide_server.specs.tide_model.Layout.{blocks_of};

use tide_server::{CycleSums, Layout, Report};

/// What a run's parts and cycles were, and what its heap holds behind the last one. Each count goes as far as 64 bits do.
#[derive(Clone, Copy, Debug, PartialEq, Eq)]
pub struct Stats {
    /// How many parts there were.
    pub parts: u64,
    /// How many full cycles ended.
    pub full_cycles: u64,
    /// How many Eden cycles ended.
    pub eden_cycles: u64,
    /// How many cells pauses made black: each counts as often as it was made so.
    pub paused: u64,
    /// How many cells visitors told to have made black beside the members.
    pub visited: u64,
    /// How many cells were born.
    pub born: u64,
    /// How many cells the cycles freed.
    pub freed: u64,
    /// How many cells lived after the last cycle, and 0 where none ended.
    pub kept: u32,
    /// How many cells of each class live at the end: of the classes with 2, 4, 8 and 16 slots, and of tables.
    pub live: [u32; 5],
    /// How many cells of each class are free then.
    pub free: [u32; 5],
    /// How many bytes the heap's words take, whatever lives.
    pub bytes: u64,
}

/// What a keeper counts behind its turns.
#[derive(Clone, Copy)]
pub(crate) struct Tally {
    /// How many parts ended.
    parts: u64,
    /// How many cells the cycles freed.
    freed: u64,
    /// How many cells live after the last cycle, and 0 where none ended.
    kept: u32,
}

impl Tally {
    ghost use Rattle.tide.specs.Counted.{Counts, with_lines, with_part};

    pub(crate) fn new() -> Tally
        ensures { Counts result 0 [] }
    {
        Tally {
            parts: 0,
            freed: 0,
            kept: 0,
        }
    }

    /// One more part ended, and its freeze told these cycles.
    pub(crate) fn add(&mut self, report: &Report)
        ensures { self.new ≡ with_lines (with_part self.old) report.now.cycles }
    {
        self.parts = self.parts.saturating_add(1);
        for line in report.cycles() {
            self.freed = self.freed.saturating_add(u64::from(line.freed));
            self.kept = line.kept;
        }
    }
}

/// How many cells of each class are free, where so many live.
fn free_cells(layout: &Layout, live: [u32; 5]) -> [u32; 5]
    requires within { (class : ℕ) → class < 5 → slice_index live class ≤ 64 * blocks_of layout.now class }
    ensures { (class : ℕ) → class < 5 → slice_index live class + slice_index result class
        ≡ 64 * blocks_of layout.now class }
{
    let mut free = [0; 5];
    for class in 0..5u8 {
        let at = usize::from(class);
        free[at] = 64 * layout.blocks(class) - live[at];
    }
    free
}

impl Stats {
    ghost use Rattle.tide.specs.Told.{HasGathered};

    /// What was counted behind the turns, and by the keeper, and what lives in a heap of this layout.
    pub(crate) fn gather(layout: &Layout, tally: Tally, sums: CycleSums, live: [u32; 5]) -> Stats
        requires within { (class : ℕ) → class < 5 → slice_index live class ≤ 64 * blocks_of layout.now class }
        ensures counted { HasGathered tally sums result }
        ensures live { result.live ≡ live }
        ensures free { (class : ℕ) → class < 5 → slice_index live class + slice_index result.free class
            ≡ 64 * blocks_of layout.now class }
        ensures bytes { result.bytes ≡ 8 * word_count layout.now }
    {
        Stats {
            parts: tally.parts,
            full_cycles: sums.full_cycles,
            eden_cycles: sums.eden_cycles,
            paused: sums.paused,
            visited: sums.visited,
            born: sums.born,
            freed: tally.freed,
            kept: tally.kept,
            live,
            free: free_cells(layout, live),
            bytes: 8 * layout.words() as u64,
        }
    }
}
