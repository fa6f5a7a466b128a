//! `Step`: which step of a participant a call makes. The code looks at none of it; the proofs do.
use tide_core::Region;
use tide_model::Op;

/// The call that a step makes, if it makes one.
pub type Made = Option<Op>;

/// A kind of step with the place that it is on, the word that it stores, and the call that it makes, if it makes one.
#[derive(Clone, Copy)]
pub(crate) enum Step {
    Retire(Made),
    LoadRegister(u8),
    StoreRegister(u8, u64, Made),
    LoadCall,
    StoreCall(u64, Made),
    LoadStrong(u32, Made),
    StoreStrong(u32, u64, Made),
    LoadWeak(u32, Made),
    StoreWeak(u32, u64, Made),
    LoadLink(u32, u8, Made),
    StoreLink(u32, u8, u64, Made),
    LoadColour(u32),
    Regrey(u32, u64, u64),
    PushBit(u32),
    LoadFree(u32),
    TakeFree(u32, u32, Made),
    StoreBorn(u32, u64),
    LoadPair(u32, u8, Made),
    StorePair(u32, u8, u64, Made),
    StoreGroup(u32, u64, Made),
    LoadClaim(u32, Made),
    TakeClaim(u32, u32, Made),
    Release(u32, Made),
    LoadElement(u32, u8, Made),
    StoreElement(u32, u8, u64, Made),
    TakeArray(u32, u32, u64, u64, Made),
    Nuke(u32, u64),
    LoadOwnArray(u32),
    StoreArray(u32, u32),
    LoadOwnStructure(u32),
    StoreStructure(u32, u64, Made),
    SwapGrey(Region, u32),
    Blacken(u32, u64),
    LoadStructure(u32),
    LoadArray(u32),
    LoadSlot(u32, u8),
    LoadElementOf(u32, u8),
    LoadAgain(u32),
    LoadTarget(u32),
    Mark(u32, u64, u64),
    UnBlacken(u32, u64),
    PushRace(u32),
    Publish(u32, u64),
    LoadDead(u32),
    ClaimBlock(u32, u64, u64),
    ZeroWord(usize),
    GiveBits(u32, u64),
    Finish(u32),
}
