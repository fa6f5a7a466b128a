//! The values that words say. It knows no cell.
ghost use Rattle.std.specs.Prelude.{◌≡◌, ◌<◌, length, slice_index};
ghost use Rattle.tide_words.specs.tide_layout.Region.{index_of_register, size_of, word_count};
ghost use Rattle.tide_words.specs.tide_layout.declared.region.Region.TheVariants.{Registers};
ghost use Rattle.tide_model.specs.declared.val.Val.{Val as Value};
ghost use Rattle.tide_words.specs.heap.Heap.{heap_of};
ghost use Rattle.tide_words.specs.heap.Reading.{IsValueOf};

use tide_model::Val;
use tide_words::{Layout, Region, Words, word_val};

/// The value whose word stands at a place, and `Empty` where none has it.
pub(crate) fn value_at<W: Words>(words: &mut W, at: usize) -> Val
    requires { at < length (W.words words.old) }
    ensures value { (value : Value) → IsValueOf value (slice_index (W.words words.old) at) → result ≡ value }
    ensures same { W.words words.new ≡ W.words words.old }
    ensures same_rest { W.rest words.new ≡ W.rest words.old }
{
    match word_val(words.load(at)) {
        Some(value) => value,
        None => Val::Empty,
    }
}

/// The value of a region's word, and `Empty` where it is none's.
pub(crate) fn value_in<W: Words>(words: &mut W, layout: &Layout, region: Region, index: u32) -> Val
    requires all_words { length (W.words words.old) ≡ word_count layout.now }
    requires of_region { index < size_of layout.now region }
    ensures value { (value : Value) → IsValueOf value (heap_of layout.now (W.words words.old) region index) →
        result ≡ value }
    ensures same { W.words words.new ≡ W.words words.old }
    ensures same_rest { W.rest words.new ≡ W.rest words.old }
{
    value_at(words, layout.place(region, index))
}

/// The value in a register of a mutator.
pub(crate) fn register_at<W: Words>(words: &mut W, layout: &Layout, who: u8, register: u8) -> Val
    requires all_words { length (W.words words.old) ≡ word_count layout.now }
    requires of_layout { who < layout.now.mutators }
    requires of_mutator { register < layout.now.registers }
    ensures value { (value : Value) → IsValueOf value (heap_of layout.now (W.words words.old) Registers
        (index_of_register layout.now who register)) → result ≡ value }
    ensures same { W.words words.new ≡ W.words words.old }
    ensures same_rest { W.rest words.new ≡ W.rest words.old }
{
    let index = u32::from(who) * u32::from(layout.registers()) + u32::from(register);
    value_in(words, layout, Region::Registers, index)
}
