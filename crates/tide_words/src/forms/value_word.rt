//! The words of values. They know no heap.
ghost use Rattle.std.specs.Prelude.{◌≡◌, IfNone, IfSome};
ghost use Rattle.tide_words.specs.forms.ValueWord.{val_word, HasU32, IsValWord};

use tide_model::Val;

/// The word of a value.
pub fn val_word(v: Val) -> u64
    ensures { result ≡ val_word v }
{
    match v {
        Val::Empty => 0,
        Val::Int(n) => 4 * u64::from(n) + 1,
        Val::Cell(cell) => 4 * u64::from(cell) + 2,
    }
}

/// The value that has this word, or `None` where no value has it.
pub fn word_val(w: u64) -> Option<Val>
    ensures value { IfSome result (λ value. val_word value ≡ w) }
    ensures number { IfSome result HasU32 }
    ensures none { IfNone result (¬ IsValWord w) }
{
    let number = u32::try_from(w / 4).ok()?;
    match w % 4 {
        0 if number == 0 => Some(Val::Empty),
        1 => Some(Val::Int(number)),
        2 => Some(Val::Cell(number)),
        _ => None,
    }
}
