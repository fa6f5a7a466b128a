//! The words of a table's pairs. They know no heap.
ghost use Rattle.std.specs.Prelude.{◌≡◌, ◌<◌, IfNone, IfSome};
ghost use Rattle.tide_words.specs.forms.PairWord.{pair_word, IsPairWord};
ghost use Rattle.tide_words.specs.forms.ValueWord.{HasU32};

use crate::{val_word, word_val};
use tide_model::Val;

/// No layout has more cells.
pub const MAX_CELLS: u32 = 83_886_080;

/// A pair's word has its key cell, plus 1, above these bits, and its value's word in them.
const VALUE_BITS: u64 = 36;

/// The word of the pair of a key cell and a value.
pub fn pair_word(key: u32, value: Val) -> u64
    requires { key < MAX_CELLS }
    ensures { result ≡ pair_word key value }
{
    (u64::from(key) + 1) * (1 << VALUE_BITS) + val_word(value)
}

/// The key cell and the value of the pair that has this word, or `None` where no pair has it.
pub fn word_pair(w: u64) -> Option<(u32, Val)>
    ensures pair { IfSome result (λ pair. pair_word pair.0 pair.1 ≡ w) }
    ensures key { IfSome result (λ pair. pair.0 < MAX_CELLS) }
    ensures value { IfSome result (λ pair. HasU32 pair.1) }
    ensures none { IfNone result (¬ IsPairWord w) }
{
    let key = u32::try_from((w >> VALUE_BITS).checked_sub(1)?).ok()?;
    let value = word_val(w % (1 << VALUE_BITS))?;
    (key < MAX_CELLS).then_some((key, value))
}
