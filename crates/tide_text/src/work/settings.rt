//! The numbers of a workload. They are within their limits where `AreSettings` of specs/ says so.

/// The numbers of a workload: how large its store is, and how its periods are parted.
#[derive(Clone, Copy, Debug, PartialEq, Eq)]
pub struct Settings {
    /// Registers of each mutator, 1 to 16.
    pub registers: u8,
    /// Strong handles, 0 to 256.
    pub strong: u16,
    /// Weak handles, 0 to 256.
    pub weak: u16,
    /// Blocks of 64 cells of the classes 0 to 4, each 0 to 64.
    pub blocks: [u8; 5],
    /// Blocks of 64 arrays of the classes 5 to 9, each 0 to 64.
    pub arrays: [u8; 5],
    /// How many calls and visits a period has, 4 to 65,536.
    pub period: u32,
    /// How many cells may be born while a cycle marks before it has to end, 1 to 1,000,000.
    pub headroom: u32,
    /// How many newly born cells begin a cycle, up to 1,000,000; 0 where none begins by itself.
    pub trigger: u32,
}
