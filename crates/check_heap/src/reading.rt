//! Numbers and layouts out of the words of a line.
ghost use Rattle.std.specs.Prelude.{◌≤◌, All, IfSome};

use std::alloc::{AllocError, Global};
use tide_words::Layout;

/// The words of a line.
pub fn words_of<'a>(alloc: Global, line: &'a str) -> Result<Vec<&'a str>, AllocError> {
    line.split_whitespace().collect(alloc)
}

/// The number of 64 bits that a word is.
pub fn large_number(word: &str) -> Option<u64> {
    word.parse().ok()
}

/// The number of 32 bits that a word is.
pub fn number(word: &str) -> Option<u32> {
    let number = large_number(word)?;
    if number <= 4_294_967_295 {
        Some(number as u32)
    } else {
        None
    }
}

/// The number of 8 bits that a word is.
pub fn small_number(word: &str) -> Option<u8> {
    let number = large_number(word)?;
    if number <= 255 {
        Some(number as u8)
    } else {
        None
    }
}

/// What stands in a word behind the sign that it begins with.
pub fn behind<'a>(sign: &str, word: &'a str) -> Option<&'a str> {
    word.strip_prefix(sign)
}

/// The two numbers of a word `A.B`.
pub fn pair_of_numbers(word: &str) -> Option<(u32, u8)> {
    let (a, b) = word.split_once(".")?;
    Some((number(a)?, small_number(b)?))
}

/// The numbers that words are.
pub fn numbers(alloc: Global, words: &[&str]) -> Result<Option<Vec<u32>>, AllocError> {
    let mut all = Vec::new(alloc);
    for word in words {
        match number(word) {
            Some(one) => all.push(one)?,
            None => return Ok(None),
        }
    }
    Ok(Some(all))
}

/// The numbers of 64 bits that words are.
pub fn large_numbers(alloc: Global, words: &[&str]) -> Result<Option<Vec<u64>>, AllocError> {
    let mut all = Vec::new(alloc);
    for word in words {
        match large_number(word) {
            Some(one) => all.push(one)?,
            None => return Ok(None),
        }
    }
    Ok(Some(all))
}

/// A number that is at most so large, and 255.
fn byte_at_most(most: u8, word: &str) -> Option<u8>
    ensures { IfSome result (λ count. count ≤ most) }
{
    let count = small_number(word)?;
    if count <= most { Some(count) } else { None }
}

/// How many blocks each of five classes has, by five words.
fn five(words: &[&str]) -> Option<[u8; 5]>
    ensures { IfSome result (All (λ count. count ≤ 64)) }
{
    let [a, b, c, d, e] = words else {
        return None;
    };
    Some([
        byte_at_most(64, a)?,
        byte_at_most(64, b)?,
        byte_at_most(64, c)?,
        byte_at_most(64, d)?,
        byte_at_most(64, e)?,
    ])
}

/// The layout of two times five blocks, and of the words of all else, of which the visitors may be left out.
fn layout_with(cells: [u8; 5], arrays: [u8; 5], others: &[&str]) -> Option<Layout>
    requires few_cells { All (λ count. count ≤ 64) cells }
    requires few_arrays { All (λ count. count ≤ 64) arrays }
{
    let [registers, strong, weak, mutators, visitors @ ..] = others else {
        return None;
    };
    let (strong, weak) = (number(strong)?, number(weak)?);
    if strong > 256 || weak > 256 {
        return None;
    }
    let visitors = visitors.first().copied().unwrap_or("0");
    Some(Layout::new(
        cells,
        arrays,
        byte_at_most(16, registers)?,
        strong as u16,
        weak as u16,
        byte_at_most(16, mutators)?,
        byte_at_most(8, visitors)?,
    ))
}

/// The layout of words: five blocks of cells, `+`, five of arrays, and then how many `registers`, `strong` and `weak`
/// handles, `mutators` and, if they are told, `visitors` there are: as `1 0 0 0 1 + 1 0 0 0 0 4 2 2 1`.
pub fn layout_of(words: &[&str]) -> Option<Layout> {
    if words.len() < 15 || words.len() > 16 || words[5] != "+" {
        return None;
    }
    layout_with(five(&words[..5])?, five(&words[6..11])?, &words[11..])
}
