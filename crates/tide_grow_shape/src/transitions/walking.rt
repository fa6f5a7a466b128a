//! The walk over the children of a shape, which sets the first empty cell that it comes to.
ghost use Rattle.std.specs.Prelude.{◌≡◌, ◌<◌, ◌≤◌, true, Contains, IfErr, IfOk, IfSome};
ghost use Rattle.tide_grow_shape.specs.transitions.Cells.{IsNumber, last_in, name_of};
ghost use Rattle.tide_grow_shape.specs.transitions.Sights.{AreSights, IsUnmade, edges_of, seen_edge};
ghost use Rattle.tide_grow_shape.specs.transitions.Walks.{Finds, Includes, first_of};

use crate::transitions::cells::Cells;
use crate::transitions::hook::GrowHook;
use crate::transitions::sight::{Sight, link_of};
use crate::transitions::sights::Sights;
use crate::transitions::unmade::Unmade;
use std::sync::Wait;
use tide_model::Memory;

/// The child that a walk is for: the shape that it has one key more than, and that key.
#[derive(Clone, Copy)]
pub struct Sought {
    pub shape: u32,
    pub key: u32,
}

/// What a cell told.
#[derive(Clone, Copy)]
pub struct Seen {
    child: u32,
    parent: u32,
    key: u32,
}

impl Sought {
    /// The number of the caller's own item, which is put into the table where that wasn't done yet. It may wait.
    fn own<R: Wait>(self, rt: &R, cells: &Cells, mine: &mut Option<u32>) -> Result<u32, Unmade>
        requires { IfSome mine.old (IsNumber (name_of cells.now)) }
        ensures mine { IfSome mine.new (IsNumber (name_of cells.now)) }
        ensures own { IfOk result (IsNumber (name_of cells.now)) }
        ensures unmade { IfErr result (IsUnmade cells.now) }
    {
        if let Some(number) = *mine {
            return Ok(number);
        }
        let Ok(item) = cells.push(rt, self.shape, self.key) else {
            return Err(Unmade::Memory);
        };
        let index = item.index();
        if index >= cells.last() as usize {
            return Err(Unmade::Many(item));
        }
        let number = index as u32 + 1;
        *mine = Some(number);
        Ok(number)
    }
}

impl Sights {
    #[tactic(auto, using(crate::proofs::transitions_laws::CellLaws::may_name))]
    /// What a cell tells. One that wasn't read is read, and is first set to an item of the caller's where it is empty.
    /// It may wait.
    ///
    /// Another grower may set the cell between the look and the set. That is harmless: a cell is set once,
    /// `set_written` then gives the number back, and the cell is read like any other that was found set (`OnceSlot` of
    /// boxcar: `Written`).
    fn observe<R: Wait, G: GrowHook>(
        &mut self,
        rt: &R,
        hook: &G,
        cells: &Cells,
        next: bool,
        of: u32,
        sought: Sought,
        mine: &mut Option<u32>,
    ) -> Result<Seen, Unmade>
        requires sights { AreSights (name_of cells.now) self.old }
        requires item { next ≡ true → 0 < of }
        requires mine { IfSome mine.old (IsNumber (name_of cells.now)) }
        ensures sights { AreSights (name_of cells.now) self.new }
        ensures more { Includes (edges_of self.old) (edges_of self.new) }
        ensures mine { IfSome mine.new (IsNumber (name_of cells.now)) }
        ensures seen { IfOk result (λ seen. Contains (edges_of self.new) (seen_edge next of seen)) }
        ensures unmade { IfErr result (IsUnmade cells.now) }
    {
        if let Some(sight) = self.of_cell(next, of) {
            return Ok(Seen {
                child: sight.child,
                parent: sight.parent,
                key: sight.key,
            });
        }
        let source = if next || of != 0 {
            Some(cells.shown(rt, of))
        } else {
            None
        };
        let cell = cells.cell(next, &source);
        let link = match cell.witness() {
            Some(link) => link,
            None => {
                let number = sought.own(rt, cells, mine)?;
                hook.at_empty(of, next);
                match cell.set_written(number) {
                    Ok(link) => link,
                    Err(_) => link_of(rt, cell),
                }
            }
        };
        let sight = Sight::read(rt, cells, next, of, source, link);
        let seen = Seen {
            child: sight.child,
            parent: sight.parent,
            key: sight.key,
        };
        match self.add(cells, sight) {
            Ok(()) => Ok(seen),
            Err(Memory) => Err(Unmade::Memory),
        }
    }

    /// Walks over the children of a shape to the one with the key, which is made where there is none. It may wait.
    #[tactic(auto, using(crate::proofs::transitions_laws::WalkLaws::walks_start, crate::proofs::transitions_laws::WalkLaws::walks_found, crate::proofs::transitions_laws::WalkLaws::walks_more, crate::proofs::transitions_laws::WalkLaws::walks_step))]
    pub fn walk<R: Wait, G: GrowHook>(
        &mut self,
        rt: &R,
        hook: &G,
        cells: &Cells,
        sought: Sought,
    ) -> Result<u32, Unmade>
        requires sights { AreSights (name_of cells.now) self.old }
        ensures sights { AreSights (name_of cells.now) self.new }
        ensures more { Includes (edges_of self.old) (edges_of self.new) }
        ensures found { IfOk result (λ child.
            Finds (edges_of self.new) sought.shape sought.key (first_of sought.shape) child) }
        ensures last { IfOk result (λ child. child ≤ last_in (name_of cells.now)) }
        ensures unmade { IfErr result (IsUnmade cells.now) }
    {
        let mut mine = None;
        let mut next = false;
        let mut of = sought.shape;
        for _ in rt.forever() {
            let seen = self.observe(rt, hook, cells, next, of, sought, &mut mine)?;
            if seen.key == sought.key {
                // A cell holds a number alone, so that its item is a child of this shape is told by the item.
                if seen.parent != sought.shape {
                    return Err(Unmade::Memory);
                }
                return Ok(seen.child);
            }
            next = true;
            of = seen.child;
        }
        unreachable!()
    }
}
