//! The words of array references and of claims. They know no heap.
ghost use Rattle.std.specs.Prelude.{◌≡◌, ◌<◌, ◌^◌, ℕ, IfNone, IfSome, Some};
ghost use Rattle.tide_words.specs.forms.Reference.{array_word, claim_word, optional_word};

/// The word of a number, or of none.
fn optional_word(number: Option<u32>) -> u64
    ensures { result ≡ optional_word number }
{
    match number {
        Some(number) => u64::from(number) + 1,
        None => 0,
    }
}

/// The number that a word is of, or `None` where it is of none that a u32 holds.
fn word_optional(w: u64) -> Option<u32>
    ensures some { IfSome result (λ number. optional_word (Some number) ≡ w) }
    ensures none { IfNone result ((number : ℕ) → number < 2 ^ 32 → optional_word (Some number) ≡ w → ⊥) }
{
    u32::try_from(w.checked_sub(1)?).ok()
}

/// The word of a cell's array, or of none.
pub fn array_word(array: Option<u32>) -> u64
    ensures { result ≡ array_word array }
{
    optional_word(array)
}

/// The array that a word is of, or `None` where it is of none.
pub fn word_array(w: u64) -> Option<u32>
    ensures some { IfSome result (λ array. array_word (Some array) ≡ w) }
    ensures none { IfNone result ((array : ℕ) → array < 2 ^ 32 → array_word (Some array) ≡ w → ⊥) }
{
    word_optional(w)
}

/// The word of the mutator that holds a cell's claim, or of none.
pub fn claim_word(holder: Option<u32>) -> u64
    ensures { result ≡ claim_word holder }
{
    optional_word(holder)
}

/// The mutator that a claim's word is of, or `None` where it is of none.
pub fn word_claim(w: u64) -> Option<u32>
    ensures some { IfSome result (λ holder. claim_word (Some holder) ≡ w) }
    ensures none { IfNone result ((holder : ℕ) → holder < 2 ^ 32 → claim_word (Some holder) ≡ w → ⊥) }
{
    word_optional(w)
}
