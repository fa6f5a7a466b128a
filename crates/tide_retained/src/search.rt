//! `Search`: the cells that were found, from one to the next. It knows no word, and in which order cells are visited it
//! doesn't say.
ghost use Rattle.std.specs.Prelude.{◌≡◌, ◌<◌, ◌≤◌, Some, fold, is_some, length, slice_index, IfOk, OnOk};
ghost use Rattle.tide_retained.specs.Contents.{cell_in, cells_in, cells_under};
ghost use Rattle.tide_retained.specs.Index.{items_of, HasGroups, HasKeys};
ghost use Rattle.tide_retained.specs.Searching.{again_entered, all_entered, entered, found_at, held_entered, is_known, is_mated, pairs_entered, place_after, roots_entered, group_mates_entered, unsearched, with_flags, with_mated, IsFound, IsKeyVisited, IsSearch, IsVisited};

use crate::Root;
use crate::contents::{Contents, Held, Keyed, Rooted};
use crate::index::{Entry, Index};
use std::alloc::Global;
use std::marker::Model;
use tide_model::{Memory, Val};

/// How a cell was found.
#[derive(Clone, Copy)]
pub(crate) struct Found {
    /// How many steps there are to it.
    pub distance: u32,
    /// The cell before it, and the cell itself where a root holds it.
    pub parent: u32,
    /// Where the path to it begins.
    pub root: Root,
}

/// The cells that were found, in their order, and how.
#[derive(Drop)]
pub(crate) struct Search {
    retained: Vec<bool>,
    found: Vec<Option<Found>>,
    order: Vec<u32>,
    mated: Vec<bool>,
}

impl Model for Search {
    ghost use Rattle.std.specs.Prelude.{◌≡◌, ◌≤◌, length};
    ghost use Rattle.tide_retained.specs.Searching.{Search as Searched};

    ghost Value = { Searched };

    ghost view = { λ s. record {
      retained = s.retained.items;
      found = s.found.items;
      order = s.order.items;
      mated = s.mated.items;
    } };

    ghost invariant = { λ s. (length s.retained.items ≡ length s.found.items)
        × (length s.mated.items ≡ length s.found.items) × (length s.found.items ≤ 83886080) };
}

/// Sets the flags of some items.
fn set_flags(flags: &mut [bool], items: &[Entry])
    ensures { flags.new ≡ with_flags flags.old (items_of items.now) }
{
    for entry in items {
        let at = entry.item as usize;
        if at < flags.len() {
            flags[at] = true;
        }
    }
}

impl Search {
    /// A search that has found nothing, where these cells are known to be retained.
    pub fn new(alloc: Global, retained: Vec<bool>) -> Result<Search, Memory>
        requires { length retained.items ≤ 83886080 }
        ensures { IfOk result (λ search. search ≡ unsearched retained.items) }
    {
        let cells = retained.len();
        let Ok(found) = vec![in alloc; None; cells] else {
            return Err(Memory);
        };
        let Ok(mated) = vec![in alloc; false; cells] else {
            return Err(Memory);
        };
        Ok(Search {
            retained,
            found,
            order: Vec::new(alloc),
            mated,
        })
    }

    /// Whether a cell is known to be retained.
    pub fn is_known(&self, cell: u32) -> bool
        ensures { result ≡ is_known self.now cell }
    {
        let at = cell as usize;
        at < self.retained.len() && self.retained[at]
    }

    /// Notes how a cell was found, unless it was found before.
    pub fn enter(&mut self, cell: u32, place: Found) -> Result<(), Memory>
        ensures { OnOk result (self.new ≡ entered place self.old cell) }
    {
        let at = cell as usize;
        if at < self.found.len() && self.found[at].is_none() {
            if self.order.push(cell).is_err() {
                return Err(Memory);
            }
            self.found[at] = Some(place);
            self.retained[at] = true;
        }
        Ok(())
    }

    /// Enters the cell that a value names, if it names one.
    fn enter_value(&mut self, value: Val, place: Found) -> Result<(), Memory>
        ensures { OnOk result (self.new ≡ all_entered place self.old (cell_in value)) }
    {
        match value {
            Val::Cell(cell) => self.enter(cell, place),
            _ => Ok(()),
        }
    }

    /// Enters the cells that some values name.
    pub fn enter_values(&mut self, values: &[Val], place: Found) -> Result<(), Memory>
        ensures { OnOk result (self.new ≡ all_entered place self.old (cells_in values.now)) }
    {
        for value in values {
            self.enter_value(*value, place)?;
        }
        Ok(())
    }

    /// Enters the cells that some properties name.
    pub fn enter_properties(&mut self, properties: &[Keyed], place: Found) -> Result<(), Memory>
        ensures { OnOk result (self.new ≡ all_entered place self.old (cells_under properties.now)) }
    {
        for property in properties {
            self.enter_value(property.value, place)?;
        }
        Ok(())
    }

    /// Enters the cells that some pairs name, where their keys are known to be retained.
    pub fn enter_pairs(&mut self, pairs: &[Keyed], place: Found) -> Result<(), Memory>
        ensures { OnOk result (self.new ≡ pairs_entered place self.old pairs.now) }
    {
        for pair in pairs {
            if self.is_known(pair.key) {
                self.enter_value(pair.value, place)?;
            }
        }
        Ok(())
    }

    /// Enters each cell that a root holds.
    pub fn enter_roots(&mut self, roots: &[Rooted]) -> Result<(), Memory>
        ensures { OnOk result (self.new ≡ roots_entered self.old roots.now) }
    {
        for rooted in roots {
            let place = Found {
                distance: 0,
                parent: rooted.cell,
                root: rooted.root,
            };
            self.enter(rooted.cell, place)?;
        }
        Ok(())
    }

    /// Enters what a cell holds.
    fn enter_held(&mut self, held: &Held, place: Found) -> Result<(), Memory>
        ensures { OnOk result (self.new ≡ held_entered place self.old held.now) }
    {
        self.enter_values(held.slots.as_slice(), place)?;
        self.enter_properties(held.properties.as_slice(), place)?;
        self.enter_pairs(held.pairs.as_slice(), place)
    }

    /// Whether the group mates of a cell were entered.
    fn is_mated(&self, cell: u32) -> bool
        ensures { result ≡ is_mated self.now cell }
    {
        let at = cell as usize;
        at < self.mated.len() && self.mated[at]
    }

    /// Enters the members of a group.
    fn enter_members(&mut self, members: &[Entry], place: Found) -> Result<(), Memory>
        ensures { OnOk result (self.new ≡ all_entered place self.old (items_of members.now)) }
    {
        for member in members {
            self.enter(member.item, place)?;
        }
        Ok(())
    }

    /// Notes of the members of a group that their group mates were entered.
    fn set_mated(&mut self, members: &[Entry])
        ensures { self.new ≡ with_mated self.old (items_of members.now) }
    {
        set_flags(self.mated.as_mut_slice(), members);
    }

    /// Enters the members of a group, each of which is a group mate of the others.
    fn enter_group_mates(&mut self, members: &[Entry], place: Found) -> Result<(), Memory>
        ensures { OnOk result (self.new ≡ group_mates_entered place self.old members.now) }
    {
        self.enter_members(members, place)?;
        self.set_mated(members);
        Ok(())
    }

    /// How a cell is found by a step from this one.
    fn place_after(&self, contents: &Contents, cell: u32) -> Found
        requires search { IsSearch contents.now self.now }
        requires found { IsFound self.now cell }
        ensures { (before : Found) → found_at self.now cell ≡ Some before → result ≡ place_after cell before }
    {
        match self.found[cell as usize] {
            Some(before) => Found {
                distance: before.distance + 1,
                parent: cell,
                root: before.root,
            },
            None => unreachable!(),
        }
    }

    /// Enters all to which a step leads from a cell that was found, as far as the keys of its pairs are known to be
    /// retained. The members of its group are entered once, with the first of them that is visited.
    pub fn visit(&mut self, contents: &Contents, groups: &Index, cell: u32) -> Result<(), Memory>
        requires search { IsSearch contents.now self.old }
        requires found { IsFound self.old cell }
        requires groups { HasGroups contents.now groups.now }
        ensures { OnOk result (IsVisited contents.now self.old cell self.new) }
    {
        let place = self.place_after(contents, cell);
        let Some(held) = contents.held(cell) else {
            return Ok(());
        };
        self.enter_held(held, place)?;
        if held.group != 0 && !self.is_mated(cell) {
            self.enter_group_mates(groups.of(held.group), place)?;
        }
        Ok(())
    }

    /// Enters the values of a table's pairs once more, if the table was found: by now the keys of more of them may be
    /// known to be retained.
    fn enter_again(&mut self, contents: &Contents, table: u32) -> Result<(), Memory>
        requires { IsSearch contents.now self.old }
        ensures { OnOk result (self.new ≡ again_entered contents.now self.old table) }
    {
        if !self.is_found(table) {
            return Ok(());
        }
        let place = self.place_after(contents, table);
        self.enter_pairs(contents.pairs(table), place)
    }

    /// Enters the values of the pairs whose key is this cell, where their tables were found.
    pub fn visit_key(&mut self, contents: &Contents, keys: &Index, cell: u32) -> Result<(), Memory>
        requires search { IsSearch contents.now self.old }
        requires keys { HasKeys contents.now keys.now }
        ensures { OnOk result (IsKeyVisited contents.now self.old cell self.new) }
    {
        self.enter_all_again(contents, keys.of(cell))?;
        Ok(())
    }

    /// Does so for some tables.
    fn enter_all_again(&mut self, contents: &Contents, tables: &[Entry]) -> Result<(), Memory>
        requires { IsSearch contents.now self.old }
        ensures { OnOk result (self.new ≡ fold (again_entered contents.now) self.old (items_of tables.now)) }
    {
        for table in tables {
            self.enter_again(contents, table.item)?;
        }
        Ok(())
    }

    /// Whether a cell was found.
    fn is_found(&self, cell: u32) -> bool
        ensures { result ≡ is_some (found_at self.now cell) }
    {
        let at = cell as usize;
        at < self.found.len() && self.found[at].is_some()
    }

    /// How many cells were found.
    pub fn len(&self) -> usize
        ensures { result ≡ length self.now.order }
    {
        self.order.len()
    }

    /// The cell that was found at this place of the order.
    pub fn cell_at(&self, at: usize) -> u32
        requires { at < length self.now.order }
        ensures { result ≡ slice_index self.now.order at }
    {
        self.order[at]
    }

    /// Which cells are known to be retained.
    pub fn into_retained(self) -> Vec<bool>
        ensures { result.items ≡ self.retained }
    {
        self.retained
    }

    /// How each cell was found, in the order of their numbers, and the order in which they were.
    pub fn into_found(self) -> (Vec<Option<Found>>, Vec<u32>)
        ensures found { result.0.items ≡ self.found }
        ensures order { result.1.items ≡ self.order }
    {
        (self.found, self.order)
    }
}
