//! What was read of the cells of one table, each cell once. It knows no shape's keys.
ghost use Rattle.std.specs.Prelude.{◌≡◌, ◌≢◌, ◌<◌, [], ◌∷◌, ◌++◌, All, Contains, IfNone, IfSome, OnErr, OnOk};
ghost use Rattle.tide_grow_shape.specs.transitions.Cells.{name_of};
ghost use Rattle.tide_grow_shape.specs.transitions.Sights.{AreSights, IsOf, IsSight, edge_of, edges_of};
ghost use Rattle.tide_grow_shape.specs.transitions.Walks.{AreOfOne};

use crate::transitions::cells::Cells;
use crate::transitions::places::Places;
use crate::transitions::sight::Sight;
use std::alloc::Global;
use std::marker::Model;
use tide_model::Memory;

/// Sights of cells. Contracts see their list.
#[derive(Drop)]
pub struct Sights {
    sights: Vec<Sight>,
    /// Where the sight of each cell stands.
    cells: Places,
    /// Where the first sight of each child stands.
    children: Places,
}

impl Model for Sights {
    ghost use Rattle.std.specs.Prelude.{List};
    ghost use Rattle.tide_grow_shape.specs.declared.transitions.sight.Sight.{Sight};

    ghost Value = { List Sight };

    ghost use Rattle.tide_grow_shape.specs.transitions.Indexed.{AreIndexed};

    ghost view = { λ s. s.sights.items };

    ghost invariant = { λ s. AreIndexed s.cells s.children s.sights.items };
}

/// The number of a cell.
fn cell_number(next: bool, shape: u32) -> u64
    ensures { result ≡ Rattle.tide_grow_shape.specs.transitions.Sights.cell_number next shape }
{
    (shape as u64) * 2 + (next as u64)
}

impl Sights {
    /// Nothing was read.
    pub fn new(alloc: Global) -> Sights
        ensures { result ≡ [] }
    {
        Sights {
            sights: Vec::new(alloc),
            cells: Places::new(alloc),
            children: Places::new(alloc),
        }
    }

    /// The sights.
    pub fn as_slice(&self) -> &[Sight]
        ensures { result.now ≡ self.now }
    {
        self.sights.as_slice()
    }

    /// The sight of a cell, where it was read.
    pub(crate) fn of_cell(&self, next: bool, shape: u32) -> Option<&Sight>
        ensures some { IfSome result (λ sight. Contains self.now sight.now × IsOf next shape sight.now) }
        ensures none { IfNone result (All (λ sight. ¬ (IsOf next shape sight)) self.now) }
    {
        match self.cells.place_of(cell_number(next, shape)) {
            Some(at) => Some(&self.sights[at]),
            None => None,
        }
    }

    /// A sight of a cell that names this child, where one was read.
    pub fn of_child(&self, child: u32) -> Option<&Sight>
        ensures some { IfSome result (λ sight. Contains self.now sight.now × (sight.now.child ≡ child)) }
        ensures none { IfNone result (All (λ sight. sight.child ≢ child) self.now) }
    {
        match self.children.place_of(child as u64) {
            Some(at) => Some(&self.sights[at]),
            None => None,
        }
    }

    /// One sight more.
    fn push(&mut self, sight: Sight) -> Result<(), Memory>
        ensures ok { OnOk result (self.new ≡ self.old ++ sight ∷ []) }
        ensures err { OnErr result (self.new ≡ self.old) }
    {
        if self.sights.reserve(1).is_err() {
            return Err(Memory);
        }
        self.cells.reserve()?;
        self.children.reserve()?;
        let at = self.sights.len();
        self.cells.add(cell_number(sight.next, sight.shape), at);
        self.children.add(sight.child as u64, at);
        self.sights.push_reserved(sight);
        Ok(())
    }

    #[tactic(auto, using(crate::proofs::transitions_laws::SightLaws::cell_met, crate::proofs::transitions_laws::SightLaws::cell_new))]
    /// What was read of a cell is what a sight tells of it.
    fn agrees_on_cell(&self, cells: &Cells, sight: &Sight)
        requires sights { AreSights (name_of cells.now) self.now }
        requires sight { IsSight (name_of cells.now) sight.now }
        ensures { (edge : _) → Contains (edges_of self.now) edge → edge.spot ≡ (edge_of sight.now).spot →
            edge.child ≡ sight.now.child }
    {
        match self.of_cell(sight.next, sight.shape) {
            Some(mine) => mine.agrees(cells, sight),
            None => {}
        }
    }

    #[tactic(auto, using(crate::proofs::transitions_laws::SightLaws::child_met, crate::proofs::transitions_laws::SightLaws::child_new))]
    /// What was read of a shape is what a sight tells of it.
    fn agrees_on_child(&self, cells: &Cells, sight: &Sight)
        requires sights { AreSights (name_of cells.now) self.now }
        requires sight { IsSight (name_of cells.now) sight.now }
        ensures { (edge : _) → Contains (edges_of self.now) edge → edge.child ≡ sight.now.child →
            (edge.parent ≡ sight.now.parent) × (edge.key ≡ sight.now.key) }
    {
        match self.of_child(sight.child) {
            Some(mine) => mine.agrees_on_child(cells, sight),
            None => {}
        }
    }

    /// A sight of the same table is of one table with what was read.
    #[tactic(auto, using(crate::proofs::transitions_laws::EdgeLaws::AreOfOne_seen))]
    pub(crate) fn agrees(&self, cells: &Cells, sight: &Sight)
        requires sights { AreSights (name_of cells.now) self.now }
        requires sight { IsSight (name_of cells.now) sight.now }
        requires some { 0 < sight.now.child }
        ensures { AreOfOne (edges_of self.now ++ edge_of sight.now ∷ []) }
    {
        self.agrees_on_cell(cells, sight);
        self.agrees_on_child(cells, sight);
    }

    #[tactic(auto, using(crate::proofs::transitions_laws::SightLaws::AreSights_either))]
    /// One sight more, which is of the same table.
    pub(crate) fn add(&mut self, cells: &Cells, sight: Sight) -> Result<(), Memory>
        requires sights { AreSights (name_of cells.now) self.old }
        requires sight { IsSight (name_of cells.now) sight }
        requires some { 0 < sight.child }
        ensures sights { AreSights (name_of cells.now) self.new }
        ensures ok { OnOk result (self.new ≡ self.old ++ sight ∷ []) }
        ensures err { OnErr result (self.new ≡ self.old) }
    {
        self.agrees(cells, &sight);
        self.push(sight)
    }
}
