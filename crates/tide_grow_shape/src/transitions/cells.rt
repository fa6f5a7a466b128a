//! The cells of a table, which are set once, and the items that hold them. It knows no thread.
ghost use Rattle.std.specs.Prelude.{◌≡◌, [], ◌∷◌};

use boxcar::slot::{OnceSlot, SlotRule, Written};
use boxcar::tag::{Names, Tag};
use boxcar::{Keeps, Pushed};
use std::alloc::Global;
use std::sync::Wait;
use tide_model::Memory;

/// A cell, whose tag is the highest number of its table, never names the empty shape, nor one above that.
pub struct AnyChild;

impl SlotRule<u32> for AnyChild {
    ghost use Rattle.tide_grow_shape.specs.transitions.Rules.{IsChild};

    ghost holds = { IsChild };
}

/// A cell that is set once, to the number of a shape.
pub type Link = OnceSlot<u32, AnyChild>;

/// A shape but the empty one: the shape that it has one key more than, that key, and two cells.
#[derive(Drop)]
pub struct Item {
    pub parent: u32,
    pub key: u32,
    pub first_child: Link,
    pub next_sibling: Link,
}

/// The cells of an item have the tag of the vector that it is in.
pub struct CellsOfTable;

impl Keeps<Item> for CellsOfTable {
    ghost holds = { λ tag _ item. (item.first_child.tag ≡ tag) × (item.next_sibling.tag ≡ tag) };
}

/// What shows an item.
pub type ShownItem = Pushed<Item, Global, CellsOfTable>;

/// The items, the cell for the first child of the empty shape, which is no item, the highest number of a shape, and how
/// many keys there are.
#[derive(Drop)]
pub struct Cells {
    items: boxcar::Vec<Item, Global, CellsOfTable>,
    first_child: Link,
    last: u32,
    keys: u32,
    ghost tags: { (items.tag ≡ last ∷ []) × (first_child.tag ≡ last ∷ []) },
}

/// What tells one table from another.
pub struct OfTable;

impl Names<Cells> for OfTable {
    ghost use Rattle.tide_grow_shape.specs.transitions.Cells.{name_of};

    ghost numbers = { name_of };
}

/// The highest number of a table, as a tag.
struct LastNumber;

impl Names<u32> for LastNumber {
    ghost numbers = { λ last. last ∷ [] };
}

/// What only clauses see of the highest number.
fn tag_of(last: u32) -> Tag
    ensures { result.numbers ≡ last ∷ [] }
{
    Tag::of::<u32, LastNumber>(&last)
}

/// An empty cell.
fn empty_cell(tag: &Tag) -> Link
    ensures { result.tag ≡ tag.now.numbers }
{
    OnceSlot::new(tag)
}

impl Item {
    /// A shape with no child yet, that nobody names.
    fn new(tag: &Tag, parent: u32, key: u32) -> Item
        ensures child { result.first_child.tag ≡ tag.now.numbers }
        ensures sibling { result.next_sibling.tag ≡ tag.now.numbers }
    {
        Item {
            parent,
            key,
            first_child: empty_cell(tag),
            next_sibling: empty_cell(tag),
        }
    }
}

impl Cells {
    ghost use Rattle.std.specs.Prelude.{◌<◌, IfOk, IfSome};
    ghost use Rattle.tide_grow_shape.specs.transitions.Cells.{IsNumber, IsShape, Shown, cell_id, keys_in, last_in, name_of};

    /// The cells of a table of the empty shape alone, for so many keys. Its shapes have numbers to `last`.
    pub fn new(alloc: Global, keys: u32, last: u32) -> Result<Cells, Memory>
        ensures keys { IfOk result (λ cells. keys_in (name_of cells) ≡ keys) }
        ensures last { IfOk result (λ cells. last_in (name_of cells) ≡ last) }
    {
        let tag = tag_of(last);
        let first_child = empty_cell(&tag);
        match boxcar::Vec::with_rule(alloc, tag) {
            Ok(items) => Ok(Cells {
                items,
                first_child,
                last,
                keys,
            }),
            Err(_) => Err(Memory),
        }
    }

    /// The highest number that a shape may have.
    pub(crate) fn last(&self) -> u32
        ensures { result ≡ last_in (name_of self.now) }
    {
        self.last
    }

    /// How many keys there are.
    pub fn keys(&self) -> u32
        ensures { result ≡ keys_in (name_of self.now) }
    {
        self.keys
    }

    /// What tells this table from others, which only clauses see.
    pub fn name(&self) -> Tag
        ensures { result.numbers ≡ name_of self.now }
    {
        Tag::of::<Cells, OfTable>(self)
    }

    #[tactic(auto, using(crate::proofs::transitions_laws::CellLaws::shown))]
    /// Puts an item into the table, which no cell names yet. It may wait.
    pub(crate) fn push<R: Wait>(&self, rt: &R, parent: u32, key: u32) -> Result<ShownItem, Memory>
        ensures { IfOk result (Shown (name_of self.now)) }
    {
        let item = Item::new(&tag_of(self.last), parent, key);
        match self.items.push_shown(rt, item) {
            Ok(pushed) => Ok(pushed),
            Err(_) => Err(Memory),
        }
    }

    #[tactic(auto, using(crate::proofs::transitions_laws::CellLaws::shown))]
    /// What shows the item of a shape, once it is there. It may wait.
    pub(crate) fn shown<R: Wait>(&self, rt: &R, shape: u32) -> ShownItem
        requires { 0 < shape }
        ensures { IsShape (name_of self.now) shape result }
    {
        for _ in rt.forever() {
            if let Some(item) = self.items.witness(shape as usize - 1) {
                return item;
            }
            std::hint::spin_loop();
        }
        unreachable!()
    }

    #[tactic(auto, using(crate::proofs::transitions_laws::CellLaws::shows))]
    /// The parent and the key of an item.
    pub(crate) fn told(&self, item: &ShownItem) -> (u32, u32)
        requires { Shown (name_of self.now) item.now }
        ensures { (result.0 ≡ item.now.value.parent) × (result.1 ≡ item.now.value.key) }
    {
        let item = self.items.value(item);
        (item.parent, item.key)
    }

    #[tactic(auto, using(crate::proofs::transitions_laws::CellLaws::shows))]
    /// One number is that of one item.
    pub(crate) fn same(&self, one: &ShownItem, other: &ShownItem)
        requires one { Shown (name_of self.now) one.now }
        requires other { Shown (name_of self.now) other.now }
        requires index { one.now.index ≡ other.now.index }
        ensures { one.now.value ≡ other.now.value }
    {
        self.items.agrees(one, other);
    }

    #[tactic(auto, using(crate::proofs::transitions_laws::CellLaws::shows))]
    /// The cell of a shape: that of its first child, or that of its next sibling.
    pub(crate) fn cell<'a>(&'a self, next: bool, source: &Option<ShownItem>) -> &'a Link
        requires { IfSome source.now (Shown (name_of self.now)) }
        ensures id { result.now.id ≡ cell_id (name_of self.now) next source.now }
        ensures tag { result.now.tag ≡ last_in (name_of self.now) ∷ [] }
    {
        match source {
            None => &self.first_child,
            Some(source) => {
                let Some(item) = self.items.get_seen(source.index(), source) else {
                    unreachable!()
                };
                if next {
                    &item.next_sibling
                } else {
                    &item.first_child
                }
            }
        }
    }

    #[tactic(auto, using(crate::proofs::transitions_laws::CellLaws::may_be_named))]
    /// The shape that a set cell names.
    pub(crate) fn named(&self, next: bool, source: &Option<ShownItem>, link: &Written<u32>) -> u32
        requires source { IfSome source.now (Shown (name_of self.now)) }
        requires link { link.now.of ≡ cell_id (name_of self.now) next source.now }
        ensures value { result ≡ link.now.value }
        ensures number { IsNumber (name_of self.now) result }
    {
        *self.cell(next, source).value(link)
    }
}
