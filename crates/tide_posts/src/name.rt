//! `HeapName`: which heap tickets and notes are of. No value of it is made: it is what a seat has beside it, for
//! contracts to speak of.
use std::collections::LinkedList;
use std::marker::Model;
use tide_heap::Layout;

/// A heap, by its layout and its table of words.
pub struct HeapName {
    layout: Layout,
    table: LinkedList<u64>,
}

impl Model for HeapName {
    ghost use Rattle.tide_posts.specs.Name.{Name, table_of};

    ghost Value = { Name };

    ghost view = { λ n. record { layout = n.layout; table_id = table_of n.table } };
}
