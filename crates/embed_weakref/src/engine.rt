//! `Engine`: a heap with a realm in the midst of a part, as a script's runtime has it while a script runs.
ghost use Rattle.embed_weakref.specs.Engine.{IsOpen};
ghost use Rattle.std.specs.Prelude.{◌≡◌, ◌≤◌};

use tide::{Books, Collector, Heap, Realm, Shapes};

/// A heap of one mutator, which is a realm's, its collector, and the books of its freezes. A part is open. Each call
/// asks that the realm takes part in it (`Works`), and leaves it so.
#[derive(Drop)]
pub struct Engine {
    pub heap: Heap<Shapes>,
    pub collector: Collector,
    pub realm: Realm,
    pub books: Books,
    ghost own: { collector.seat.table_id ≡ heap.table.shared.table_id },
    ghost alone: { (heap.key.layout.mutators ≡ 1) × (heap.key.layout.visitors ≡ 0) },
    ghost registers: { 4 ≤ heap.key.layout.registers },
    ghost open: { IsOpen heap.key.layout books collector.seat.me.0 },
}
