//! What a snapshot tells of a cell.
ghost use Rattle.tide_c.specs.Looks.{IsFound};

use tide::Snapshot;

/// What a snapshot tells of a cell.
#[repr(C)]
#[derive(Clone, Copy)]
pub struct Found {
    /// 1 where it was so, else 0; and how long a shortest path is.
    pub live: u32,
    pub held: u32,
    pub steps: u32,
}

impl Found {
    /// What it tells of this cell.
    pub fn of(snapshot: &Snapshot, cell: u32) -> Found
        ensures found { IsFound snapshot.now cell result }
    {
        if !snapshot.is_live(cell) {
            return Found {
                live: 0,
                held: 0,
                steps: 0,
            };
        }
        let (held, steps) = match snapshot.distance(cell) {
            None => (0, 0),
            Some(steps) => (1, steps),
        };
        Found {
            live: 1,
            held,
            steps,
        }
    }
}
