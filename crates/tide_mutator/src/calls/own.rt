//! `OwnPass`: a mutator's pass, which reads its registers and the words of cells that it claims. It makes no call.
ghost use Rattle.std.specs.Prelude.{◌≡◌, ℕ};
ghost use Rattle.atomic_table.specs.Seated.{TableId};
ghost use Rattle.tide_heap.specs.tide_core.declared.machine.view.View.{View};
ghost use Rattle.tide_mutator.specs.calls.Owning.{OwnsAt, unread};

use tide_heap::{Heap, HeapShapes, Layout, OwnRegisters, OwnWords, Pass};

/// A mutator's pass. The words of its registers are its own, and those of the cells that it claims: while it runs,
/// nobody else stores them.
#[derive(Drop)]
pub(crate) struct OwnPass {
    pub(crate) pass: Pass,
}

impl<S: HeapShapes> OwnRegisters<Heap<S>> for OwnPass {
    ghost owns = { λ own heap layout who words. (own.pass.seat.table_id ≡ heap.table.shared.table_id)
        × OwnsAt heap.key.layout (S.lists heap.key.shapes) own.pass.seat.me.0 layout who words };

    ghost Rest = { TableId × ℕ × View };

    ghost rest = { λ own. (own.pass.seat.table_id, own.pass.seat.id, unread own.pass.seat.me.0) };

    fn register(&mut self, context: &Heap<S>, _layout: &Layout, _who: u32, register: u8) -> u64 {
        self.pass.load_register(context, register)
    }
}

impl<S: HeapShapes> OwnWords<Heap<S>> for OwnPass {
    fn structure(&mut self, context: &Heap<S>, _layout: &Layout, _who: u32, cell: u32) -> u64 {
        self.pass.load_own_structure(context, cell)
    }

    fn array(&mut self, context: &Heap<S>, _layout: &Layout, _who: u32, cell: u32) -> u64 {
        self.pass.load_own_array(context, cell)
    }

    fn pair(
        &mut self,
        context: &Heap<S>,
        _layout: &Layout,
        _who: u32,
        table: u32,
        place: u8,
        at: usize,
    ) -> u64 {
        self.pass.load_pair_at(context, table, place, at)
    }
}
