//! A table of shapes that growers have made, for a heap that is opened afterwards. It knows no cell.
ghost use Rattle.std.specs.Prelude.{◌≡◌, ◌==◌, ◌<◌, IfSome, length, position};
ghost use Rattle.tide_shape.specs.ShapeTable.{IsShapeTable};

use crate::growers::numbered::Numbered;
use tide_shape::ShapeTable;

/// The shapes that some growers know, by their numbers. A number that none of them knows has no key.
#[derive(Drop)]
pub struct Settled {
    pub(crate) numbered: Numbered,
    pub ghost is_table: { IsShapeTable numbered },
}

/// The place of the key among some, where it is one of them.
fn place_in(keys: &[u32], key: u32) -> Option<usize>
    ensures first { result ≡ position (λ other. other == key) keys.now }
    ensures within { IfSome result (λ place. place < length keys.now) }
{
    keys.iter().position(|other| *other == key)
}

impl Settled {
    ghost use Rattle.tide_grow_shape.specs.growers.Lists.{settled_lists};

    /// How many numbers there are, from 0 on.
    pub fn len(&self) -> u64
        ensures { result ≡ length (settled_lists self.now) }
    {
        self.numbered.len() as u64
    }
}

impl ShapeTable for Settled {
    ghost lists = { λ settled. settled.numbered };

    fn next(&self, shape: u32, key: u32) -> Option<u32> {
        self.numbered.child(shape, key)
    }

    fn place(&self, shape: u32, key: u32) -> Option<u32> {
        let place = place_in(self.numbered.keys(shape), key)?;
        Some(place as u32)
    }

    fn count(&self, shape: u32) -> u32 {
        self.numbered.keys(shape).len() as u32
    }

    fn key_at(&self, shape: u32, place: u32) -> u32 {
        self.numbered.keys(shape)[place as usize]
    }

    ghost is_table = { λ settled. settled.is_table };
}
