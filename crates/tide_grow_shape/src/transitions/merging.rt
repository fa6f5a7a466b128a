//! What two growers of one table read agrees, and one takes over what another read.
ghost use Rattle.std.specs.Prelude.{◌<◌, ◌++◌, Contains, OnOk};
ghost use Rattle.tide_grow_shape.specs.transitions.Cells.{name_of};
ghost use Rattle.tide_grow_shape.specs.transitions.Sights.{AreSights, IsSight, edge_of, edges_of};
ghost use Rattle.tide_grow_shape.specs.transitions.Walks.{AreOfOne, Includes};

use crate::transitions::cells::Cells;
use crate::transitions::sight::Sight;
use crate::transitions::sights::Sights;
use tide_model::Memory;

impl Sights {
    #[tactic(auto, using(crate::proofs::transitions_laws::MergeLaws::agrees_none, crate::proofs::transitions_laws::MergeLaws::agrees_more, crate::proofs::transitions_laws::MergeLaws::agrees_all))]
    /// What two growers of one table read is of one table.
    pub fn agrees_with(&self, cells: &Cells, others: &[Sight])
        requires mine { AreSights (name_of cells.now) self.now }
        requires theirs { AreSights (name_of cells.now) others.now }
        ensures { AreOfOne (edges_of self.now ++ edges_of others.now) }
    {
        for sight in others {
            self.agrees(cells, sight);
        }
    }

    #[tactic(auto, using(crate::proofs::transitions_laws::SightLaws::more_either, crate::proofs::transitions_laws::SightLaws::last_either))]
    /// What another grower read of a cell.
    fn merge_one(&mut self, cells: &Cells, sight: &Sight) -> Result<(), Memory>
        requires sights { AreSights (name_of cells.now) self.old }
        requires sight { IsSight (name_of cells.now) sight.now }
        requires some { 0 < sight.now.child }
        ensures sights { AreSights (name_of cells.now) self.new }
        ensures more { Includes (edges_of self.old) (edges_of self.new) }
        ensures merged { OnOk result (Contains (edges_of self.new) (edge_of sight.now)) }
    {
        match self.of_cell(sight.next, sight.shape) {
            Some(mine) => {
                mine.agrees(cells, sight);
                Ok(())
            }
            None => self.add(cells, sight.again()),
        }
    }

    #[tactic(auto, using(crate::proofs::transitions_laws::MergeLaws::merges_none, crate::proofs::transitions_laws::MergeLaws::merges_more, crate::proofs::transitions_laws::MergeLaws::merges_all))]
    /// All that another grower of the same table read.
    pub fn merge(&mut self, cells: &Cells, others: &[Sight]) -> Result<(), Memory>
        requires mine { AreSights (name_of cells.now) self.old }
        requires theirs { AreSights (name_of cells.now) others.now }
        ensures sights { AreSights (name_of cells.now) self.new }
        ensures more { Includes (edges_of self.old) (edges_of self.new) }
        ensures merged { OnOk result (Includes (edges_of others.now) (edges_of self.new)) }
    {
        for sight in others {
            self.merge_one(cells, sight)?;
        }
        Ok(())
    }
}
