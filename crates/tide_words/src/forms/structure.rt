//! `Structure`, and the words of structures. They know no heap.
ghost use Rattle.std.specs.Prelude.{◌≡◌, ◌≤◌, IfNone, IfSome};
ghost use Rattle.tide_words.specs.forms.StructureWord.{structure_word, IsStructureWord};

/// What a cell's structure word says of its properties.
#[derive(Clone, Copy)]
pub struct Structure {
    pub shape: u32,
    /// The number of properties, at most 64 in a word.
    pub count: u32,
    /// The cell is in the middle of a transition that replaces its array.
    pub nuked: bool,
}

/// The word of a structure of at most 64 properties.
pub fn structure_word(s: Structure) -> u64
    requires { s.count ≤ 64 }
    ensures { result ≡ structure_word s }
{
    256 * u64::from(s.shape) + 2 * u64::from(s.count) + u64::from(s.nuked)
}

/// The structure that has this word, or `None` where none of at most 64 properties has it.
pub fn word_structure(w: u64) -> Option<Structure>
    ensures structure { IfSome result (λ structure. structure_word structure ≡ w) }
    ensures count { IfSome result (λ structure. structure.count ≤ 64) }
    ensures none { IfNone result (¬ IsStructureWord w) }
{
    let shape = u32::try_from(w / 256).ok()?;
    let count = (w % 256 / 2) as u32;
    let nuked = w % 2 == 1;
    (count <= 64).then_some(Structure {
        shape,
        count,
        nuked,
    })
}
