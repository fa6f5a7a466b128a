//! `Weaks`: a realm's weak handles, those in use and the others. It knows no heap.
ghost use Rattle.std.specs.Prelude.{◌≡◌, ◌≢◌, ◌+◌, ◌-◌, ◌<◌, ◌≤◌, ◌==◌, ℕ, [], ◌∷◌, ◌++◌, length, count_by, filter, not, nat_lt, if◌then◌else◌, Contains, IfOk, IfSome, Some, None, slice_get, vec_len, vec_capacity};
ghost use Rattle.std.specs.List.{remove};
ghost use Rattle.tide_weakref.specs.Roles.{is_chosen};
ghost use Rattle.tide_weakref.specs.declared.weak.Weak.{Weak as WeakIs};

use crate::range::Range16;
use crate::weak::{Chosen, Weak, is_chosen};
use std::alloc::Global;
use tide_model::Memory;

/// A realm's weak handles. Each is in use once, or unused.
#[derive(Drop)]
pub struct Weaks {
    pub(crate) handles: Range16,
    /// Those in use, in the order in which they were taken.
    pub(crate) uses: Vec<Weak>,
    /// The others, counted from 0. The last one is used next.
    pub(crate) unused: Vec<u16>,
    ghost each: { (at : ℕ) →
        count_by (λ (one : WeakIs). one.at == at) uses.items + count_by (λ (n : ℕ). n == at) unused.items
        ≡ (if nat_lt at handles.count then 1 else 0) },
    ghost all: { vec_len uses + vec_len unused ≡ handles.count },
    ghost room: { handles.count ≤ vec_capacity uses },
    ghost room_back: { handles.count ≤ vec_capacity unused },
}

impl Weaks {
    /// Weak handles of which none is in use.
    pub fn new(alloc: Global, handles: Range16) -> Result<Weaks, Memory>
        ensures handles { IfOk result (λ weaks. weaks.handles ≡ handles) }
        ensures uses { IfOk result (λ weaks. weaks.uses.items ≡ []) }
    {
        let count = usize::from(handles.count);
        let uses = Vec::with_capacity(alloc, count)?;
        let mut unused = Vec::with_capacity(alloc, count)?;
        for at in (0..handles.count).rev() {
            unused.push_reserved(at);
        }
        Ok(Weaks {
            handles,
            uses,
            unused,
        })
    }

    /// How many are in use.
    pub fn count(&self) -> usize
        ensures { result ≡ length self.now.uses.items }
    {
        self.uses.len()
    }

    /// The one in use at a place.
    pub fn used(&self, place: usize) -> Weak
        requires { place < length self.now.uses.items }
        ensures is { slice_get self.now.uses.items place ≡ Some result }
        ensures within { result.at < self.now.handles.count }
    {
        self.uses[place]
    }

    /// The handle that is used next, counted from 0. `None` exactly where each is in use.
    pub fn next(&self) -> Option<u16>
        ensures next { result ≡ slice_get self.now.unused.items (vec_len self.now.unused - 1) }
        ensures fresh { IfSome result (λ at. (at < self.now.handles.count)
            × ((one : WeakIs) → Contains self.now.uses.items one → one.at ≢ at)) }
        ensures some { IfSome result (λ _. length self.now.uses.items < self.now.handles.count) }
        ensures none { result ≡ None → length self.now.uses.items ≡ self.now.handles.count }
    {
        self.unused.last().copied()
    }

    /// Takes the handle that is used next.
    pub fn add(&mut self, one: Weak)
        requires { slice_get self.old.unused.items (vec_len self.old.unused - 1) ≡ Some one.at }
        ensures handles { self.new.handles ≡ self.old.handles }
        ensures uses { self.new.uses.items ≡ self.old.uses.items ++ one ∷ [] }
    {
        self.unused.pop();
        self.uses.push_reserved(one);
    }

    /// Gives up the handle in use at a place.
    pub fn remove(&mut self, place: usize) -> Weak
        requires { place < length self.old.uses.items }
        ensures handles { self.new.handles ≡ self.old.handles }
        ensures uses { self.new.uses.items ≡ remove self.old.uses.items place }
        ensures was { slice_get self.old.uses.items place ≡ Some result }
    {
        let one = self.uses.remove(place);
        self.unused.push_reserved(one.at);
        one
    }

    /// Gives up those that are meant, and answers how many there were.
    pub fn give_up(&mut self, chosen: Chosen) -> u32
        ensures handles { self.new.handles ≡ self.old.handles }
        ensures uses { self.new.uses.items ≡ filter (λ one. not (is_chosen chosen one)) self.old.uses.items }
        ensures count { result ≡ count_by (is_chosen chosen) self.old.uses.items }
    {
        let _most = self.handles.count;
        let mut count: u32 = 0;
        let mut place = 0;
        'passing: while place < self.uses.len() {
            if is_chosen(&self.uses[place], chosen) {
                self.remove(place);
                count += 1;
            } else {
                place += 1;
            }
        }
        count
    }
}
