//! The words of a text and the numbers that they spell, whatever they stand for.
ghost use Rattle.std.specs.Prelude.{◌≡◌, ◌≤◌, if◌then◌else◌, Some, None, [], ◌∷◌, length, position, MatchOption, option_map};
ghost use Rattle.std.specs.Char.{is_ascii_digit};
ghost use Rattle.std.specs.List.{list_all};
ghost use Rattle.std.specs.Str.Parse.{digits_value};
ghost use Rattle.tide_text.specs.work.Words.{is_space, is_word_byte, is_trimmed, words_in, one_word, two_words, three_words, number_of, number_below};

/// Whether a text neither begins nor ends with a space.
pub fn is_trimmed(text: &[u8]) -> bool
    ensures { result ≡ is_trimmed text.now }
{
    text.first() != Some(&b' ') && text.last() != Some(&b' ')
}

/// Where the first space of a text is.
fn first_space(text: &[u8]) -> Option<usize>
    ensures { result ≡ position is_space text.now }
{
    text.iter().position(|byte| *byte == b' ')
}

/// Where the first byte of a text is that is no space.
fn first_word_byte(text: &[u8]) -> Option<usize>
    ensures { result ≡ position is_word_byte text.now }
{
    text.iter().position(|byte| *byte != b' ')
}

/// The first word of a text, and the text after it.
pub fn next_word(text: &[u8]) -> Option<(&[u8], &[u8])>
    ensures { MatchOption result (words_in text.now ≡ [])
        (λ parts. words_in text.now ≡ parts.0.now ∷ words_in parts.1.now) }
{
    let begin = first_word_byte(text)?;
    let (_, text) = text.split_at(begin);
    let end = first_space(text).unwrap_or(text.len());
    Some(text.split_at(end))
}

/// The word of a text that has no other.
pub fn one_word(text: &[u8]) -> Option<&[u8]>
    ensures { option_map (λ word. word.now) result ≡ one_word (words_in text.now) }
{
    let (only, rest) = next_word(text)?;
    match next_word(rest) {
        Some(_) => None,
        None => Some(only),
    }
}

/// The words of a text that has no more than these two.
pub fn two_words(text: &[u8]) -> Option<(&[u8], &[u8])>
    ensures { option_map (λ words. (words.0.now, words.1.now)) result ≡ two_words (words_in text.now) }
{
    let (first, rest) = next_word(text)?;
    let second = one_word(rest)?;
    Some((first, second))
}

/// The words of a text that has no more than these three.
pub fn three_words(text: &[u8]) -> Option<(&[u8], &[u8], &[u8])>
    ensures { option_map (λ words. (words.0.now, words.1.now, words.2.now)) result ≡ three_words (words_in text.now) }
{
    let (first, rest) = next_word(text)?;
    let (second, third) = two_words(rest)?;
    Some((first, second, third))
}

/// What a word of no more than ten bytes spells, where each of them is a digit.
fn digits_value(word: &[u8]) -> Option<u64>
    requires { length word.now ≤ MAX_DIGITS }
    ensures { result ≡ (if list_all is_ascii_digit word.now then Some (digits_value 10 word.now) else None) }
{
    let mut value = 0u64;
    for byte in word {
        if !byte.is_ascii_digit() {
            return None;
        }
        value = 10 * value + u64::from(*byte - b'0');
    }
    Some(value)
}

/// The number that a word spells. A single digit, as most registers have, takes no loop.
pub fn number_of(word: &[u8]) -> Option<u32>
    ensures { result ≡ number_of word.now }
{
    match word {
        [digit @ b'0'..=b'9'] => Some(u32::from(*digit - b'0')),
        _ => longer_number(word),
    }
}

/// The number that a word of any length spells.
fn longer_number(word: &[u8]) -> Option<u32>
    ensures { result ≡ number_of word.now }
{
    if word.is_empty() || word.len() > MAX_DIGITS {
        return None;
    }
    u32::try_from(digits_value(word)?).ok()
}

/// The number that a word spells, where it is below a limit.
pub fn number_below(word: &[u8], limit: u16) -> Option<u16>
    ensures { result ≡ number_below limit word.now }
{
    let number = number_of(word)?;
    if number < u32::from(limit) {
        Some(number as u16)
    } else {
        None
    }
}

/// The same of a limit that is a byte.
pub fn byte_below(word: &[u8], limit: u8) -> Option<u8>
    ensures { result ≡ number_below limit word.now }
{
    let number = number_below(word, u16::from(limit))?;
    Some(number as u8)
}

/// How many digits a number may have.
const MAX_DIGITS: usize = 10;
