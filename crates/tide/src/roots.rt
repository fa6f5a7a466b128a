//! `Roots`: which registers a root stack has. It knows no heap.
ghost use Rattle.std.specs.Prelude.{◌<◌, ◌≤◌};

/// The registers of a root stack: from `base` to below `end`. The one before `base` is for operands.
#[derive(Clone, Copy)]
pub(crate) struct Roots {
    pub(crate) base: u8,
    pub(crate) end: u8,
    ghost some: { 0 < base },
    ghost order: { base ≤ end },
}
