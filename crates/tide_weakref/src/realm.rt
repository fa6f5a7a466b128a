//! `Realm`: a mutator with weak references and registrations. It makes no call.
ghost use Rattle.std.specs.Prelude.{◌≡◌, [], IfOk};
ghost use Rattle.tide_model.specs.Caller.{IsOwn};
ghost use Rattle.tide_model.specs.Layout.{Layout};
ghost use Rattle.tide_model.specs.declared.val.Val.TheVariants.{Empty};
ghost use Rattle.tide_mutator.specs.calls.Viewed as works;

use crate::kept::Kept;
use crate::range::Range16;
use crate::weaks::Weaks;
use std::alloc::Global;
use tide_model::Memory;
use tide_mutator::Mutator;

/// A mutator with weak references and registrations: its calls are made through it.
#[derive(Drop)]
pub struct Realm {
    pub(crate) mutator: Mutator,
    /// A register that is empty between its calls.
    pub(crate) scratch: u8,
    pub(crate) kept: Kept,
    pub(crate) weaks: Weaks,
}

impl Realm {
    ghost use Rattle.tide_weakref.specs.Jobs.{HasKeptJobs, IsOfLayout, registers_of};
    ghost use Rattle.tide_weakref.specs.Viewed.{jobs_of, seat_of, table_of, view_of};

    /// A realm without references and registrations, which keeps nothing. `kept` are its strong handles, and `refs` its
    /// weak ones. The register `scratch` is empty.
    pub fn new(
        alloc: Global,
        mutator: Mutator,
        scratch: u8,
        kept: Range16,
        refs: Range16,
    ) -> Result<Realm, Memory>
        ensures same { IfOk result (λ realm. (table_of realm ≡ works.table_of mutator)
            × (seat_of realm ≡ works.seat_of mutator) × (view_of realm ≡ works.view_of mutator)) }
        ensures jobs { IfOk result (λ realm. jobs_of realm
            ≡ record { scratch = scratch; strong = kept; weak = refs; uses = []; cells = [] }) }
        ensures kept_jobs { IfOk result (λ realm. (layout : Layout) → IsOfLayout layout (jobs_of realm) →
            IsOwn (view_of realm).who (view_of realm).seen (view_of realm).mine →
            registers_of layout (view_of realm).who (view_of realm).seen scratch ≡ Empty →
            HasKeptJobs layout (view_of realm) (jobs_of realm)) }
    {
        let kept = Kept::new(alloc, kept)?;
        let weaks = Weaks::new(alloc, refs)?;
        Ok(Realm {
            mutator,
            scratch,
            kept,
            weaks,
        })
    }
}
