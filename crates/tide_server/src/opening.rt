//! A standing heap is opened: its members, its helpers and its keeper get their seats, and the first part its tickets.
ghost use Rattle.std.specs.Prelude.{ℕ, ◌≡◌, ◌+◌, ◌<◌, ◌≤◌, [], IfOk, OnOk, false, length, vec_len};
ghost use Rattle.tide_posts.specs.tide_heap.Turns.{opened};
ghost use Rattle.tide_posts.specs.tide_heap.tide_freeze.Books.{AreBooks};
ghost use Rattle.tide_posts.specs.Name.{places};
ghost use Rattle.tide_posts.specs.Among.{Among};
ghost use Rattle.tide_server.specs.Keepers.{IsKeeperOf, KeeperStands};
ghost use Rattle.tide_server.specs.Opened.{AreHelpers, AreMembers};
ghost use Rattle.tide_table.specs.Started.{ArePasses, IsStarted};

use crate::helper::Helper;
use crate::keeper::Keeper;
use crate::member::Member;
use crate::standing::Standing;
use std::alloc::Global;
use std::sync::atomic::AtomicBool;
use tide_model::Memory;
use tide_posts::{
    Books, GreyList, HandedIn, Heap, HeapName, HeapShapes, KeeperSeat, Pacing, Pass, Ticket,
    open_table,
};
use tide_shape::ShapeTable;
use tide_table::Start;

/// A heap that stands, with the right to each of its seats.
#[derive(Drop)]
pub struct Opened<S: HeapShapes> {
    pub standing: Standing<S>,
    pub keeper: Keeper,
    /// A member for each mutator, in the order of their numbers.
    pub members: Vec<Member>,
    /// A helper for each visitor, in the order of their numbers.
    pub helpers: Vec<Helper>,
}

/// A heap that stands, in which a ticket is due at each place, and its keeper's seat. No member is seated yet.
fn stand<S: HeapShapes + Drop>(
    alloc: Global,
    heap: Heap<S>,
) -> Result<(Standing<S>, KeeperSeat<Ticket, HandedIn, HeapName>), Memory>
    ensures heap { IfOk result (λ made. made.0.heap ≡ heap) }
    ensures own { IfOk result (λ made. made.1.seat.table_id ≡ made.0.hands.shared.table_id) }
    ensures named { IfOk result (λ made. made.1.seat.me.0.name ≡ record {
      layout = heap.key.layout;
      table_id = heap.table.shared.table_id;
    }) }
    ensures first { IfOk result (λ made. made.1.seat.me.0.next ≡ 0) }
    ensures nothing { IfOk result (λ made. (made.1.seat.me.0.over ≡ false) × (made.1.seat.me.0.ends ≡ [])
        × (made.1.seat.me.0.given ≡ 0) × (made.1.seat.me.0.tickets ≡ []) × (made.1.seat.me.0.notes ≡ [])) }
    ensures due { IfOk result (λ made. (place : ℕ) → place < places heap.key.layout →
        Among place made.1.seat.me.0.free) }
{
    let places = usize::from(heap.layout().mutators()) + usize::from(heap.layout().visitors());
    let Ok((hands, seat)) = open_table(alloc, &heap, places) else {
        return Err(Memory);
    };
    let standing = Standing {
        heap,
        hands,
        wanted: AtomicBool::new(false),
    };
    Ok((standing, seat))
}

/// A member for each mutator's pass.
fn seat_members<S: HeapShapes>(
    alloc: Global,
    standing: &Standing<S>,
    seat: &mut KeeperSeat<Ticket, HandedIn, HeapName>,
    passes: Vec<Pass>,
) -> Result<Vec<Member>, Memory>
    requires own { seat.old.seat.table_id ≡ standing.now.hands.shared.table_id }
    requires named { seat.old.seat.me.0.name ≡ record {
      layout = standing.now.heap.key.layout;
      table_id = standing.now.heap.table.shared.table_id;
    } }
    requires first { seat.old.seat.me.0.next ≡ 0 }
    requires all { vec_len passes ≡ standing.now.heap.key.layout.mutators }
    requires passes { ArePasses standing.now.heap.table.shared.table_id 0 passes.items }
    ensures own { seat.new.seat.table_id ≡ seat.old.seat.table_id }
    ensures named { seat.new.seat.me.0.name ≡ seat.old.seat.me.0.name }
    ensures kept { record seat.new.seat.me.0 { next = 0 } ≡ record seat.old.seat.me.0 { next = 0 } }
    ensures next { OnOk result (seat.new.seat.me.0.next ≡ standing.now.heap.key.layout.mutators) }
    ensures members { IfOk result (λ made. (length made.items ≡ standing.now.heap.key.layout.mutators)
        × AreMembers standing.now.heap.key.layout standing.now.heap.table.shared.table_id
        standing.now.hands.shared.table_id 0 made.items) }
{
    let mut members = Vec::new(alloc);
    for pass in passes {
        let own = seat.seat_member(&standing.hands.shared, members.len());
        let member = Member::new(pass, own);
        members.push(member)?;
    }
    Ok(members)
}

/// A helper for each visitor's pass, with a stack for each cell of the heap.
fn seat_helpers<S: HeapShapes>(
    alloc: Global,
    standing: &Standing<S>,
    seat: &mut KeeperSeat<Ticket, HandedIn, HeapName>,
    passes: Vec<Pass>,
) -> Result<Vec<Helper>, Memory>
    requires own { seat.old.seat.table_id ≡ standing.now.hands.shared.table_id }
    requires named { seat.old.seat.me.0.name ≡ record {
      layout = standing.now.heap.key.layout;
      table_id = standing.now.heap.table.shared.table_id;
    } }
    requires next { seat.old.seat.me.0.next ≡ standing.now.heap.key.layout.mutators }
    requires all { vec_len passes ≡ standing.now.heap.key.layout.visitors }
    requires passes { ArePasses standing.now.heap.table.shared.table_id 16 passes.items }
    ensures own { seat.new.seat.table_id ≡ seat.old.seat.table_id }
    ensures named { seat.new.seat.me.0.name ≡ seat.old.seat.me.0.name }
    ensures kept { record seat.new.seat.me.0 { next = 0 } ≡ record seat.old.seat.me.0 { next = 0 } }
    ensures helpers { IfOk result (λ made. (length made.items ≡ standing.now.heap.key.layout.visitors)
        × AreHelpers standing.now.heap.key.layout standing.now.heap.table.shared.table_id
        standing.now.hands.shared.table_id 16 made.items) }
{
    let layout = standing.heap.layout();
    let mutators = usize::from(layout.mutators());
    let mut helpers = Vec::new(alloc);
    for pass in passes {
        let stack = GreyList::without_notes(alloc, layout.cells())?;
        let own = seat.seat_member(&standing.hands.shared, mutators + helpers.len());
        let helper = Helper::new(pass, stack, own);
        helpers.push(helper)?;
    }
    Ok(helpers)
}

/// Opens a heap that has just started, for the life of its host: the first part is open, and its tickets are posted.
pub fn open<S: ShapeTable + Drop>(
    alloc: Global,
    start: Start<S>,
    pacing: Pacing,
) -> Result<Opened<S>, Memory>
    requires own { start.collector.seat.table_id ≡ start.heap.table.shared.table_id }
    requires started { IsStarted start.heap.key.layout (S.lists start.heap.key.shapes) start.collector.seat.me.0 }
    requires mutators { (vec_len start.mutators ≡ start.heap.key.layout.mutators)
        × ArePasses start.heap.table.shared.table_id 0 start.mutators.items }
    requires visitors { (vec_len start.visitors ≡ start.heap.key.layout.visitors)
        × ArePasses start.heap.table.shared.table_id 16 start.visitors.items }
    ensures heap { IfOk result (λ made. made.standing.heap ≡ start.heap) }
    ensures keeper { IfOk result (λ made. IsKeeperOf start.heap.key.layout start.heap.table.shared.table_id
        made.standing.hands.shared.table_id made.keeper) }
    ensures stands { IfOk result (λ made. 0 < start.heap.key.layout.mutators → KeeperStands start.heap.key.layout
        start.heap.table.shared.table_id made.standing.hands.shared.table_id made.keeper) }
    ensures posted { IfOk result (λ made. made.keeper.seat.seat.me.0.given ≡ places start.heap.key.layout) }
    ensures opened { IfOk result (λ made. made.keeper.collector.seat.me.0
        ≡ opened start.heap.key.layout pacing.calls start.collector.seat.me.0) }
    ensures books { IfOk result (λ made. AreBooks start.heap.key.layout [] made.keeper.books) }
    ensures pacing { IfOk result (λ made. made.keeper.books.pacing ≡ pacing) }
    ensures members { IfOk result (λ made. (length made.members.items ≡ start.heap.key.layout.mutators)
        × AreMembers start.heap.key.layout start.heap.table.shared.table_id
        made.standing.hands.shared.table_id 0 made.members.items) }
    ensures helpers { IfOk result (λ made. (length made.helpers.items ≡ start.heap.key.layout.visitors)
        × AreHelpers start.heap.key.layout start.heap.table.shared.table_id
        made.standing.hands.shared.table_id 16 made.helpers.items) }
{
    let Start {
        heap,
        collector,
        mutators,
        visitors,
    } = start;
    let books = Books::new(alloc, heap.layout(), pacing, 0, 0)?;
    let (standing, mut seat) = stand(alloc, heap)?;
    let members = seat_members(alloc, &standing, &mut seat, mutators)?;
    let helpers = seat_helpers(alloc, &standing, &mut seat, visitors)?;
    let mut keeper = Keeper::new(collector, seat, books);
    keeper.open_first(&standing, pacing.calls);
    Ok(Opened {
        standing,
        keeper,
        members,
        helpers,
    })
}
