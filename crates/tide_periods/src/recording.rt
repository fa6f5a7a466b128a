//! A store, and what was run on it, event by event, with the report of its cycles.
ghost use Rattle.std.specs.Prelude.{◌≡◌, ◌<◌, ◌^◌, ◌++◌, ◌∷◌, [], false, map, slice_index_or, IfOk, OnOk};
ghost use Rattle.tide_model.specs.declared.entry.Entry.TheVariants.{Sweep};
ghost use Rattle.tide_model.specs.Cycle.{live_count};
ghost use Rattle.tide_model.specs.History.{plain};
ghost use Rattle.tide_model.specs.Numbers.{numbers_where};
ghost use Rattle.tide_model.specs.State.{empty_state};
ghost use Rattle.tide_periods.specs.Recorded.{IsSettled, RanCycle, StandsIdle};
ghost use Rattle.tide_periods.specs.Store.{blocks_in};

use crate::recorder::{Recorder, append, with_room};
use crate::store::Store;
use std::alloc::Global;
use tide_model::{Entry, Event, Ids, Memory, Op, Reply};
use tide_report::Report;
use tide_sched::Pacing;

/// A store, and what was run on it.
#[derive(Drop)]
pub struct Recording<S: Store> {
    store: S,
    events: Vec<Event>,
    report: Report,
    /// How many cycles began.
    cycles: u64,
    /// How many parts were opened.
    parts: u32,
    /// How many blocks the store has.
    blocks: u32,
}

/// Adds an entry that took no array.
fn enter(events: &mut Vec<Event>, entry: Entry) -> Result<(), Memory>
    ensures { OnOk result (events.new.items ≡ events.old.items ++ plain entry ∷ []) }
{
    append(events, Event { entry, took: None })
}

/// Adds the sweeps of the last collection.
fn enter_sweeps<S: Store>(events: &mut Vec<Event>, store: &S, blocks: u32) -> Result<(), Memory>
    requires { blocks ≡ blocks_in (S.setting store.now) }
    ensures { OnOk result (events.new.items ≡ events.old.items ++ map (λ block. plain (Sweep block))
        (numbers_where (λ block. slice_index_or (S.sweeps store.now) block false) blocks)) }
{
    for block in 0..blocks {
        if store.swept(block) {
            enter(events, Entry::Sweep { block })?;
        }
    }
    Ok(())
}

impl<S: Store + Drop> Recorder for Recording<S> {
    ghost recorded = { λ s. record {
      setting = S.setting s.store;
      state = S.state s.store;
      history = s.events.items;
      cycles = s.cycles;
      parts = s.parts;
      blocks = s.blocks;
    } };

    ghost stands = { λ s. StandsIdle (S.setting s.store).layout (S.state s.store) s.events.items s.report };

    /// No cycle of it begins by itself.
    ghost paces = { λ pacing. pacing.trigger ≡ 0 };

    fn call(&mut self, who: u32, op: Op) -> Result<Reply, Memory> {
        let reply = self.store.call(who, op);
        let took = self.store.taken();
        let entry = Entry::Call { who, op, reply };
        append(&mut self.events, Event { entry, took })?;
        Ok(reply)
    }

    fn claims(&self, who: u32) -> u32 {
        self.store.claims(who)
    }

    fn open(&mut self, run: u32) -> Result<(), Memory> {
        self.parts += 1;
        let number = self.parts;
        enter(&mut self.events, Entry::Open { number, run })?;
        Ok(())
    }

    fn freeze(&mut self, is_forced: bool, pacing: Pacing, alloc: Global) -> Result<u32, Memory> {
        if is_forced {
            self.cycle(alloc)?;
        }
        Ok(pacing.calls)
    }

    fn live(&mut self) -> u32 {
        self.store.live()
    }

    fn into_parts(self) -> (Vec<Event>, Report) {
        let Recording {
            store: _,
            events,
            report,
            cycles: _,
            parts: _,
            blocks: _,
        } = self;
        (events, report)
    }
}

impl<S: Store + Drop> Recording<S> {
    /// A store on which nothing was run yet, which has so many blocks, with room for so many events.
    pub fn new(alloc: Global, store: S, blocks: u32, room: usize) -> Result<Recording<S>, Memory>
        requires empty { S.state store ≡ empty_state }
        requires blocks { blocks ≡ blocks_in (S.setting store) }
        ensures stands { IfOk result (λ new. ⟦<Recording<S> as Recorder>⟧.stands new) }
        ensures settled { IfOk result (λ new. IsSettled (⟦<Recording<S> as Recorder>⟧.recorded new)) }
        ensures nothing { IfOk result (λ new. (⟦<Recording<S> as Recorder>⟧.recorded new).history ≡ []) }
        ensures setting { IfOk result (λ new. (⟦<Recording<S> as Recorder>⟧.recorded new).setting ≡ S.setting store) }
    {
        let events = with_room(alloc, room)?;
        let report = Report::new(alloc, 0, 0)?;
        Ok(Recording {
            store,
            events,
            report,
            cycles: 0,
            parts: 0,
            blocks,
        })
    }

    /// Runs a whole cycle and records it.
    fn cycle(&mut self, alloc: Global) -> Result<(), Memory>
        requires settled { IsSettled (⟦<Recording<S> as Recorder>⟧.recorded self.old) }
        requires stands { ⟦<Recording<S> as Recorder>⟧.stands self.old }
        requires room { (⟦<Recording<S> as Recorder>⟧.recorded self.old).cycles < 2 ^ 60 }
        ensures ran { OnOk result (RanCycle (⟦<Recording<S> as Recorder>⟧.recorded self.old)
            (⟦<Recording<S> as Recorder>⟧.recorded self.new)) }
        ensures stands { OnOk result (⟦<Recording<S> as Recorder>⟧.stands self.new) }
    {
        let freed = self.store.collect(alloc)?;
        let kept = self.store.live();
        self.cycles += 1;
        let cycle = self.cycles;
        enter(&mut self.events, Entry::Begin { cycle, full: true })?;
        enter(&mut self.events, Entry::Pause { visits: kept })?;
        self.report.push(cycle, kept, freed.as_slice())?;
        let freed = Ids::new(freed);
        enter(&mut self.events, Entry::End { cycle, freed })?;
        enter_sweeps(&mut self.events, &self.store, self.blocks)?;
        Ok(())
    }
}
