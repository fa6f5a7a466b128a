//! Texts that are put together. A library of checks uses these alone: each kind of formatting or parsing that a crate
//! uses for the first time is costly to prove there.

use std::alloc::{AllocError, Global};

/// A text of its own.
pub fn text(alloc: Global, text: &str) -> Result<String, AllocError> {
    String::from_str(alloc, text)
}

/// Texts one behind the other.
pub fn joined(alloc: Global, parts: &[&str]) -> Result<String, AllocError> {
    let mut all = String::new(alloc);
    for part in parts {
        all.push_str(part)?;
    }
    Ok(all)
}

/// A number with a text before it and one behind it.
pub fn number_between(
    alloc: Global,
    before: &str,
    number: u64,
    behind: &str,
) -> Result<String, AllocError> {
    format!(in alloc; "{before}{number}{behind}")
}

/// A number.
pub fn number_text(alloc: Global, number: u64) -> Result<String, AllocError> {
    number_between(alloc, "", number, "")
}

/// Some numbers with spaces between, and `none` where there are none.
pub fn numbers_text(alloc: Global, numbers: &[u32]) -> Result<String, AllocError> {
    if numbers.is_empty() {
        return text(alloc, "none");
    }
    let mut all = String::new(alloc);
    let mut space = "";
    for number in numbers {
        let one = number_between(alloc, space, u64::from(*number), "")?;
        all.push_str(one.as_str())?;
        space = " ";
    }
    Ok(all)
}

/// The number, and `none` where there is none.
pub fn number_or_none(alloc: Global, number: Option<u32>) -> Result<String, AllocError> {
    match number {
        Some(number) => number_text(alloc, u64::from(number)),
        None => text(alloc, "none"),
    }
}

/// Tells a line of these texts: puts it at the end of the findings of a check, which the program prints.
pub fn tell(findings: &mut String, parts: &[&str]) -> Result<(), AllocError> {
    for part in parts {
        findings.push_str(part)?;
    }
    findings.push_str("\n")
}
