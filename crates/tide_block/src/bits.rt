//! The bits of a word: which are set, and a word with one of them or all the other way. They know no block.
ghost use Rattle.std.specs.Int.{bit_at};
ghost use Rattle.std.specs.Prelude.{◌≡◌, ◌≢◌, ◌-◌, ◌<◌, ◌≤◌, ◌==◌, ◌↔◌, ℕ, IsNone, IfSome};
ghost use Rattle.tide_block.specs.Bits.{IsClearFrom, IsLowestFrom, IsWithBit};

/// The lowest set bit, from 0 to 63. `None` comes exactly for 0.
pub fn lowest(word: u64) -> Option<u32>
    ensures none { IsNone result ↔ (word ≡ 0) }
    ensures lowest { IfSome result (IsLowestFrom word 0) }
{
    if word == 0 {
        return None;
    }
    Some(word.trailing_zeros())
}

/// The lowest set bit that is not below `k`, which is at most 64. `None` comes exactly where there is none.
pub fn after(word: u64, k: u32) -> Option<u32>
    requires { k ≤ 64 }
    ensures none { IsNone result ↔ IsClearFrom word k }
    ensures lowest { IfSome result (IsLowestFrom word k) }
{
    let above = word.checked_shr(k)?;
    let steps = lowest(above)?;
    Some(k + steps)
}

/// Whether a bit is set.
pub fn has_bit(word: u64, bit: u32) -> bool
    requires { bit < 64 }
    ensures { result ≡ (bit_at word bit == 1) }
{
    word >> bit & 1 == 1
}

/// The word with a bit set.
pub fn with_bit(word: u64, bit: u32) -> u64
    requires { bit < 64 }
    ensures { IsWithBit word result bit 1 }
{
    word | (1 << bit)
}

/// The word with a bit clear.
pub fn without_bit(word: u64, bit: u32) -> u64
    requires { bit < 64 }
    ensures { IsWithBit word result bit 0 }
{
    word & !(1 << bit)
}

/// The word without its lowest set bit. It needs no look at which bit that is, so that the next one is known sooner.
pub fn without_lowest(word: u64) -> u64
    requires { word ≢ 0 }
    ensures { (bit : ℕ) → IsLowestFrom word 0 bit → IsWithBit word result bit 0 }
{
    word & (word - 1)
}

/// The word in which just those bits are set that are clear in this one.
pub fn complement(word: u64) -> u64
    ensures { (bit : ℕ) → bit < 64 → bit_at result bit ≡ 1 - bit_at word bit }
{
    !word
}
