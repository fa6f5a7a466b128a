//! A chain that is stored word by word over words that stand still, and then marked in two pauses.
ghost use Rattle.std.specs.Prelude.{◌≡◌, ◌≤◌, [], length};
ghost use Rattle.tide_heap.specs.tide_layout.Region.{word_count};
ghost use Rattle.tide_model.specs.Layout.{cell_count};

use check_heap::Heap;
use tide_heap::{GreyList, Layout, Region, Solved, Words, begin, pause, word_phase};

/// No cycle begins from this one on.
const LAST_CYCLE: u64 = 1 << 60;

/// What a cycle answered: whether it began, and its two pauses.
#[derive(Clone, Copy)]
pub struct Marked {
    pub begun: bool,
    pub first: Option<Solved>,
    pub second: Option<Solved>,
}

/// Stores the words of a heap one by one over others.
pub fn store_all<W: Words>(words: &mut W, layout: &Layout, heap: &mut Heap)
    requires all_words { length (W.words words.old) ≡ word_count layout.now }
    ensures all_words { length (W.words words.new) ≡ word_count layout.now }
{
    let count = heap.words.len().min(words.len());
    for at in 0..count {
        let word = heap.words.load(at);
        words.store(at, word);
    }
}

/// Begins a cycle where none marks, and answers whether it did.
fn begin_over<W: Words>(words: &mut W, layout: &Layout) -> bool
    requires all_words { length (W.words words.old) ≡ word_count layout.now }
    ensures all_words { length (W.words words.new) ≡ word_count layout.now }
{
    let (cycle, marks) = word_phase(words.load(layout.place(Region::Phase, 0)));
    if marks || cycle >= LAST_CYCLE {
        return false;
    }
    begin(words, layout, true);
    true
}

/// Pauses where a cycle marks, and tells how that ended.
fn pause_over<W: Words>(
    words: &mut W,
    layout: &Layout,
    list: &mut GreyList,
    budget: u32,
) -> Option<Solved>
    requires all_words { length (W.words words.old) ≡ word_count layout.now }
    requires empty { list.old.cells ≡ [] }
    requires room { cell_count layout.now ≤ list.old.cap }
    ensures all_words { length (W.words words.new) ≡ word_count layout.now }
    ensures same_list { list.new ≡ list.old }
{
    let (_, marks) = word_phase(words.load(layout.place(Region::Phase, 0)));
    if !marks {
        return None;
    }
    Some(pause(words, layout, list, budget))
}

/// Begins a cycle, and pauses twice within these budgets.
pub fn mark_in_two<W: Words>(
    words: &mut W,
    layout: &Layout,
    list: &mut GreyList,
    budgets: [u32; 2],
) -> Marked
    requires all_words { length (W.words words.old) ≡ word_count layout.now }
    requires empty { list.old.cells ≡ [] }
    requires room { cell_count layout.now ≤ list.old.cap }
{
    let [small, large] = budgets;
    Marked {
        begun: begin_over(words, layout),
        first: pause_over(words, layout, list, small),
        second: pause_over(words, layout, list, large),
    }
}
