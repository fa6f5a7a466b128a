//! A heap starts: frozen and empty, with a pass for each participant.
ghost use Rattle.std.specs.Prelude.{◌≡◌, ◌<◌, ◌≤◌, ◌+◌, ℕ, IfOk, length, true, vec_len};
ghost use Rattle.tide_heap.specs.tide_layout.Region.{size_of, word_count};
ghost use Rattle.tide_heap.specs.Parties.{IsParty};
ghost use Rattle.tide_table.specs.Started.{ArePasses, HasFilled, IsStarted, is_but_next};

use crate::collector::Collector;
use crate::zeros::{zeros, zeros_besides};
use atomic_table::Table;
use std::alloc::{AllocError, Global};
use std::marker::Brand;
use tide_heap::{Heap, HeapShapes, Key, Layout, Pass, Region};
use tide_model::Memory;
use tide_shape::ShapeTable;

/// A heap, with the right to each of its seats.
#[derive(Drop)]
pub struct Start<S: HeapShapes> {
    pub heap: Heap<S>,
    pub collector: Collector,
    /// A pass for each mutator, in the order of their numbers from 0.
    pub mutators: Vec<Pass>,
    /// A pass for each visitor, in the order of their numbers from 16.
    pub visitors: Vec<Pass>,
}

impl<S: ShapeTable + Drop> Start<S> {
    /// A frozen and empty heap, with an empty history and a pass for each participant of its layout.
    pub fn new(alloc: Global, layout: Layout, shapes: S) -> Result<Start<S>, Memory>
        ensures made { IfOk result (λ s. (s.heap.key.layout ≡ layout) × (s.heap.key.shapes ≡ shapes)) }
        ensures collector { IfOk result (λ s. s.collector.seat.table_id ≡ s.heap.table.shared.table_id) }
        ensures started { IfOk result (λ s. IsStarted layout (S.lists shapes) s.collector.seat.me.0) }
        ensures mutators { IfOk result (λ s. (vec_len s.mutators ≡ layout.mutators)
            × ArePasses s.heap.table.shared.table_id 0 s.mutators.items) }
        ensures visitors { IfOk result (λ s. (vec_len s.visitors ≡ layout.visitors)
            × ArePasses s.heap.table.shared.table_id 16 s.visitors.items) }
    {
        let mutators = u32::from(layout.mutators());
        let visitors = u32::from(layout.visitors());
        let count = layout.words();
        let Ok(others) = vec![in alloc; 0; zeros_besides(count)] else {
            return Err(Memory);
        };
        let key = Key { layout, shapes };
        let Ok((table, seat)) = Table::of_words(alloc, zeros(others.as_slice(), count), &key) else {
            return Err(Memory);
        };
        let heap = Heap { table, key };
        let mut collector = Collector {
            seat,
            period: 0,
            run: 0,
            marking: false,
            cycle: 0,
            base: 0,
            born: 0,
            visits: [0; 8],
            pauses: (0, 0),
        };
        collector.fill(&heap, Region::Base, 1, 1);
        collector.fill(&heap, Region::Active, mutators, 1);
        let blocks = heap.layout().block_count();
        collector.fill(&heap, Region::Free, blocks, u64::MAX);
        let Ok(mutators) = collector.seat_all(alloc, &heap, 0, mutators) else {
            return Err(Memory);
        };
        let Ok(visitors) = collector.seat_all(alloc, &heap, 16, visitors) else {
            return Err(Memory);
        };
        Ok(Start {
            heap,
            collector,
            mutators,
            visitors,
        })
    }
}

impl Collector {
    /// Stores a word to each place of a region.
    fn fill<S: HeapShapes>(&mut self, heap: &Heap<S>, region: Region, count: u32, word: u64)
        requires own { self.old.seat.table_id ≡ heap.now.table.shared.table_id }
        requires frozen { self.old.seat.me.0.frozen ≡ true }
        requires long { length self.old.seat.me.0.words ≡ word_count heap.now.key.layout }
        requires all { count ≡ size_of heap.now.key.layout region }
        ensures same { (self.new.seat.table_id ≡ self.old.seat.table_id) × (self.new.seat.id ≡ self.old.seat.id) }
        ensures filled { HasFilled heap.now.key.layout region word count self.old.seat.me.0 self.new.seat.me.0 }
    {
        for index in 0..count {
            let at = heap.layout().place(region, index);
            self.store(heap, at, word);
        }
    }

    /// The seats of some participants with numbers one after another.
    fn seat_all<S: HeapShapes>(
        &mut self,
        alloc: Global,
        heap: &Heap<S>,
        first: u32,
        count: u32,
    ) -> Result<Vec<Pass>, AllocError>
        requires own { self.old.seat.table_id ≡ heap.now.table.shared.table_id }
        requires later { self.old.seat.me.0.next ≤ first }
        requires few { (first ≤ 16) × (count ≤ 16) }
        requires parties { (i : ℕ) → i < count → IsParty heap.now.key.layout (first + i) }
        ensures same { (self.new.seat.table_id ≡ self.old.seat.table_id) × (self.new.seat.id ≡ self.old.seat.id) }
        ensures seated { is_but_next self.old.seat.me.0 self.new.seat.me.0 × (self.new.seat.me.0.next ≤ first + count) }
        ensures passes { IfOk result (λ v. (vec_len v ≡ count)
            × ArePasses heap.now.table.shared.table_id first v.items) }
    {
        let mut passes = Vec::new(alloc);
        for i in 0..count {
            passes.push(self.seat_as::<S, Brand>(heap, first + i))?;
        }
        Ok(passes)
    }
}
