//! The fields of a workload's document, by name alone.
ghost use Rattle.std.specs.Prelude.{◌≡◌, ◌≤◌, length};
ghost use Rattle.tide_text.specs.work.FieldNames.{name_of};

/// A field of a workload's document, as refusals name it.
#[derive(Clone, Copy, Debug, PartialEq, Eq)]
pub enum Field {
    Registers,
    Strong,
    Weak,
    Blocks,
    Arrays,
    Period,
    Headroom,
    Trigger,
    Shapes,
    Mutator,
    Ops,
    /// A name that no field has.
    Other,
}

impl Field {
    /// The name under which the field stands in the document.
    pub fn name(self) -> &'static str
        ensures value { result.now ≡ name_of self }
        ensures short { length result.now ≤ 9 }
    {
        match self {
            Field::Registers => "registers",
            Field::Strong => "strong",
            Field::Weak => "weak",
            Field::Blocks => "blocks",
            Field::Arrays => "arrays",
            Field::Period => "period",
            Field::Headroom => "headroom",
            Field::Trigger => "trigger",
            Field::Shapes => "shapes",
            Field::Mutator => "mutator",
            Field::Ops => "ops",
            Field::Other => "other",
        }
    }
}
