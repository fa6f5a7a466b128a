//! Reading which cells the roots hold: registers of active mutators, claims and strong handles.
ghost use Rattle.std.specs.Prelude.{ℕ, ◌≡◌, ◌<◌, Some, length, IfNone, IfOk, IfSome, OnOk};
ghost use Rattle.tide_words.specs.tide_layout.Region.{word_count};
ghost use Rattle.tide_model.specs.Refused.{ShapeLists};
ghost use Rattle.tide_model.specs.State.{State};
ghost use Rattle.tide_words.specs.forms.Reference.{claim_word};
ghost use Rattle.tide_words.specs.heap.Heap.{heap_of};
ghost use Rattle.tide_words.specs.heap.Reading.{ReadsAs};
ghost use Rattle.tide_model.specs.Layout.{cell_count};
ghost use Rattle.tide_retained.specs.RootsRead.{AddsRoots, IsActiveRoot, IsClaimRoot, IsClaimWordRoot, IsNamedRoot, IsOwnRoot, IsRegisterRoot, IsStrongRoot, AreRootsOf};

use crate::Root;
use crate::contents::Rooted;
use crate::values::{register_at, value_in};
use std::alloc::Global;
use tide_model::{Memory, Val};
use tide_words::{Layout, Region, Words, word_claim};

/// Puts a root behind the others, where its value names a cell.
fn push_root(roots: &mut Vec<Rooted>, root: Root, value: Val) -> Result<(), Memory>
    ensures { OnOk result (AddsRoots (IsNamedRoot root value) roots.old.items roots.new.items) }
{
    if let Val::Cell(cell) = value {
        if roots.push(Rooted { root, cell }).is_err() {
            return Err(Memory);
        }
    }
    Ok(())
}

/// Puts the registers of a mutator behind the others.
fn push_registers<W: Words>(
    words: &mut W,
    layout: &Layout,
    who: u8,
    roots: &mut Vec<Rooted>,
) -> Result<(), Memory>
    requires all_words { length (W.words words.old) ≡ word_count layout.now }
    requires of_layout { who < layout.now.mutators }
    ensures registers { OnOk result ((shapes : ShapeLists) (state : State) →
        ReadsAs layout.now shapes (heap_of layout.now (W.words words.old)) state →
        AddsRoots (IsRegisterRoot state who layout.now.registers) roots.old.items roots.new.items) }
    ensures same { W.words words.new ≡ W.words words.old }
    ensures same_rest { W.rest words.new ≡ W.rest words.old }
{
    for register in 0..layout.registers() {
        let value = register_at(words, layout, who, register);
        push_root(roots, Root::Register { who, register }, value)?;
    }
    Ok(())
}

/// Puts the registers of a mutator behind the others, if it is active.
fn push_active<W: Words>(
    words: &mut W,
    layout: &Layout,
    who: u8,
    roots: &mut Vec<Rooted>,
) -> Result<(), Memory>
    requires all_words { length (W.words words.old) ≡ word_count layout.now }
    requires of_layout { who < layout.now.mutators }
    ensures registers { OnOk result ((shapes : ShapeLists) (state : State) →
        ReadsAs layout.now shapes (heap_of layout.now (W.words words.old)) state →
        AddsRoots (IsOwnRoot layout.now state who) roots.old.items roots.new.items) }
    ensures same { W.words words.new ≡ W.words words.old }
    ensures same_rest { W.rest words.new ≡ W.rest words.old }
{
    if words.load(layout.place(Region::Active, u32::from(who))) != 1 {
        return Ok(());
    }
    push_registers(words, layout, who, roots)
}

/// Puts the registers of the active mutators behind the others.
fn push_mutators<W: Words>(
    words: &mut W,
    layout: &Layout,
    roots: &mut Vec<Rooted>,
) -> Result<(), Memory>
    requires all_words { length (W.words words.old) ≡ word_count layout.now }
    ensures mutators { OnOk result ((shapes : ShapeLists) (state : State) →
        ReadsAs layout.now shapes (heap_of layout.now (W.words words.old)) state →
        AddsRoots (IsActiveRoot layout.now state layout.now.mutators) roots.old.items roots.new.items) }
    ensures same { W.words words.new ≡ W.words words.old }
    ensures same_rest { W.rest words.new ≡ W.rest words.old }
{
    for who in 0..layout.mutators() {
        push_active(words, layout, who, roots)?;
    }
    Ok(())
}

/// The mutator whose claim a word is of.
fn claimant(word: u64) -> Option<u8>
    ensures some { IfSome result (λ who. claim_word (Some who) ≡ word) }
    ensures few { IfSome result (λ who. who < 256) }
    ensures none { IfNone result ((who : ℕ) → who < 256 → claim_word (Some who) ≡ word → ⊥) }
{
    match word_claim(word) {
        Some(who) => u8::try_from(who).ok(),
        None => None,
    }
}

/// Puts the claim of a cell behind the others, if its word is that of a mutator's.
fn push_claim(roots: &mut Vec<Rooted>, cell: u32, word: u64) -> Result<(), Memory>
    ensures { OnOk result (AddsRoots (IsClaimWordRoot cell word) roots.old.items roots.new.items) }
{
    match claimant(word) {
        Some(who) => push_root(roots, Root::Claim { who }, Val::Cell(cell)),
        None => Ok(()),
    }
}

/// Puts the claims behind the others.
fn push_claims<W: Words>(
    words: &mut W,
    layout: &Layout,
    roots: &mut Vec<Rooted>,
) -> Result<(), Memory>
    requires all_words { length (W.words words.old) ≡ word_count layout.now }
    ensures claims { OnOk result ((shapes : ShapeLists) (state : State) →
        ReadsAs layout.now shapes (heap_of layout.now (W.words words.old)) state →
        AddsRoots (IsClaimRoot state (cell_count layout.now)) roots.old.items roots.new.items) }
    ensures same { W.words words.new ≡ W.words words.old }
    ensures same_rest { W.rest words.new ≡ W.rest words.old }
{
    for cell in 0..layout.cells() {
        let word = words.load(layout.place(Region::Claim, cell));
        push_claim(roots, cell, word)?;
    }
    Ok(())
}

/// Puts the strong handles behind the others.
fn push_handles<W: Words>(
    words: &mut W,
    layout: &Layout,
    roots: &mut Vec<Rooted>,
) -> Result<(), Memory>
    requires all_words { length (W.words words.old) ≡ word_count layout.now }
    ensures handles { OnOk result ((shapes : ShapeLists) (state : State) →
        ReadsAs layout.now shapes (heap_of layout.now (W.words words.old)) state →
        AddsRoots (IsStrongRoot state layout.now.strong) roots.old.items roots.new.items) }
    ensures same { W.words words.new ≡ W.words words.old }
    ensures same_rest { W.rest words.new ≡ W.rest words.old }
{
    for handle in 0..layout.strong() {
        let value = value_in(words, layout, Region::Strong, u32::from(handle));
        push_root(roots, Root::Strong { handle }, value)?;
    }
    Ok(())
}

/// Each root with the cell that it holds: registers of active mutators, then claims, then strong handles.
pub(crate) fn read_roots<W: Words>(
    alloc: Global,
    words: &mut W,
    layout: &Layout,
) -> Result<Vec<Rooted>, Memory>
    requires all_words { length (W.words words.old) ≡ word_count layout.now }
    ensures roots { IfOk result (λ roots. (shapes : ShapeLists) (state : State) →
        ReadsAs layout.now shapes (heap_of layout.now (W.words words.old)) state →
        AreRootsOf state roots.items) }
    ensures same { W.words words.new ≡ W.words words.old }
    ensures same_rest { W.rest words.new ≡ W.rest words.old }
{
    let mut roots = Vec::new(alloc);
    push_mutators(words, layout, &mut roots)?;
    push_claims(words, layout, &mut roots)?;
    push_handles(words, layout, &mut roots)?;
    Ok(roots)
}
