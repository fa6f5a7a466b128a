//! The operation that words say, by `tide_text`: that of a workload, with `k` and its number for a property key; or
//! `retire`, which no workload writes.

use check_heap::number_between;
use std::alloc::{AllocError, Global};
use tide_layout::Layout;
use tide_model::Op;
use tide_text::{Keys, MAX_KEYS, OpArguments, Settings, is_key, op_of};

/// The keys `k0` to `k63`.
pub fn numbered_keys(alloc: Global) -> Result<Keys, AllocError> {
    let mut keys = Keys::new(alloc);
    for number in 0..64 {
        let name = number_between(alloc, "k", number, "")?;
        let name = name.as_str().as_bytes();
        if (keys.len() as usize) < MAX_KEYS && is_key(name) {
            keys.add(alloc, name)?;
        }
    }
    Ok(keys)
}

/// Words with a space between each two.
fn spaced(alloc: Global, words: &[&str]) -> Result<String, AllocError> {
    let mut all = String::new(alloc);
    for word in words {
        if !all.as_str().is_empty() {
            all.push_str(" ")?;
        }
        all.push_str(word)?;
    }
    Ok(all)
}

/// The operation that words say, under the limits of a layout.
pub fn op_in(
    alloc: Global,
    layout: &Layout,
    keys: &Keys,
    words: &[&str],
) -> Result<Option<Op>, AllocError> {
    if let ["retire"] = words {
        return Ok(Some(Op::Retire));
    }
    let settings = Settings {
        registers: layout.registers(),
        strong: layout.strong(),
        weak: layout.weak(),
        blocks: [0; 5],
        arrays: [0; 5],
        period: 0,
        headroom: 0,
        trigger: 0,
    };
    let text = spaced(alloc, words)?;
    Ok(op_of(text.as_str().as_bytes(), &OpArguments::new(&settings, keys)))
}
