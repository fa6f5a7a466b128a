//! What was read of one cell, with what shows that it was. It knows no list of sights.
ghost use Rattle.std.specs.Prelude.{◌≡◌, ◌<◌};
ghost use Rattle.tide_grow_shape.specs.transitions.Cells.{IsSource, cell_id, name_of};
ghost use Rattle.tide_grow_shape.specs.transitions.Sights.{IsOf, IsSight, edge_of};

use crate::transitions::cells::{Cells, Link, ShownItem};
use boxcar::slot::Written;
use std::sync::Wait;

/// A set cell as it was read: which it is, the shape that it names, and that shape's parent and last key.
#[derive(Drop)]
pub struct Sight {
    pub next: bool,
    pub shape: u32,
    pub child: u32,
    pub parent: u32,
    pub key: u32,
    /// What shows the item that the cell is in, but for the empty shape's cell.
    source: Option<ShownItem>,
    link: Written<u32>,
    item: ShownItem,
}

/// What shows the item, once more.
fn source_again(source: &Option<ShownItem>) -> Option<ShownItem>
    ensures { result ≡ source.now }
{
    match source {
        Some(source) => Some(source.again()),
        None => None,
    }
}

/// What shows that a cell is set, once it is. It may wait.
pub(crate) fn link_of<R: Wait>(rt: &R, cell: &Link) -> Written<u32>
    ensures { result.of ≡ cell.now.id }
{
    for _ in rt.forever() {
        if let Some(link) = cell.witness() {
            return link;
        }
        std::hint::spin_loop();
    }
    unreachable!()
}

impl Sight {
    /// What is read of a set cell. It may wait for the item that the cell names.
    pub(crate) fn read<R: Wait>(
        rt: &R,
        cells: &Cells,
        next: bool,
        shape: u32,
        source: Option<ShownItem>,
        link: Written<u32>,
    ) -> Sight
        requires source { IsSource (name_of cells.now) next shape source }
        requires link { link.of ≡ cell_id (name_of cells.now) next source }
        ensures sight { IsSight (name_of cells.now) result }
        ensures of { IsOf next shape result }
        ensures some { 0 < result.child }
    {
        let child = cells.named(next, &source, &link);
        let item = cells.shown(rt, child);
        let (parent, key) = cells.told(&item);
        Sight {
            next,
            shape,
            child,
            parent,
            key,
            source,
            link,
            item,
        }
    }

    /// Whoever reads a cell reads the same of it.
    pub(crate) fn agrees(&self, cells: &Cells, other: &Sight)
        requires mine { IsSight (name_of cells.now) self.now }
        requires theirs { IsSight (name_of cells.now) other.now }
        requires of { IsOf other.now.next other.now.shape self.now }
        ensures { edge_of self.now ≡ edge_of other.now }
    {
        if let Some(source) = &self.source {
            if let Some(others) = &other.source {
                cells.same(source, others);
            }
        }
        self.link.agrees(&other.link);
        self.agrees_on_child(cells, other);
    }

    /// Whoever reads of a shape reads one parent and one key.
    pub(crate) fn agrees_on_child(&self, cells: &Cells, other: &Sight)
        requires mine { IsSight (name_of cells.now) self.now }
        requires theirs { IsSight (name_of cells.now) other.now }
        requires child { self.now.child ≡ other.now.child }
        ensures parent { self.now.parent ≡ other.now.parent }
        ensures key { self.now.key ≡ other.now.key }
    {
        cells.same(&self.item, &other.item);
    }

    /// The same once more.
    pub(crate) fn again(&self) -> Sight
        ensures edge { edge_of result ≡ edge_of self.now }
        ensures sight { (name : _) → IsSight name self.now → IsSight name result }
    {
        Sight {
            next: self.next,
            shape: self.shape,
            child: self.child,
            parent: self.parent,
            key: self.key,
            source: source_again(&self.source),
            link: self.link.again(),
            item: self.item.again(),
        }
    }
}
