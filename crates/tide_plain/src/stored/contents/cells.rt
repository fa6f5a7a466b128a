//! Changes of a cell: its birth, a slot, and its group.
ghost use Rattle.std.specs.Prelude.{◌<◌};
ghost use Rattle.tide_model.specs.declared.val.Val.TheVariants.{Cell};

use crate::stored::contents::Contents;
use tide_model::Val;

impl Contents {
    ghost use Rattle.tide_model.specs.Applied.{put_cell, put_slot};
    ghost use Rattle.tide_model.specs.Layout.{cell_count};
    ghost use Rattle.tide_model.specs.References.{IsLive};
    ghost use Rattle.tide_model.specs.State.{blank_cell, live};
    ghost use Rattle.tide_plain.specs.stored.Contents.{state_of, Leaves};

    /// A cell is live, and holds nothing.
    pub fn bear(&mut self, cell: u32)
        requires { cell < cell_count self.old.layout }
        ensures { Leaves self.old self.new (put_cell (state_of self.old) cell (blank_cell live)) }
    {
        self.cells.bear(cell);
    }

    /// A slot of a live cell gets another value.
    pub fn set_slot(&mut self, cell: u32, slot: u8, value: Val)
        requires live { IsLive (state_of self.old) cell }
        requires slot { slot < 16 }
        ensures { Leaves self.old self.new (put_slot (state_of self.old) (Cell cell) slot value) }
    {
        self.cells.set_slot(cell, slot, value);
    }

    /// A live cell is in a group, or in none where the number is 0.
    pub fn set_group(&mut self, cell: u32, group: u32)
        requires { IsLive (state_of self.old) cell }
        ensures { Leaves self.old self.new (put_cell (state_of self.old) cell (record ((state_of self.old).cells cell) {
          group = group;
        })) }
    {
        let mut stored = *self.cells.stored(cell);
        stored.group = group;
        self.cells.store(cell, stored);
    }
}
