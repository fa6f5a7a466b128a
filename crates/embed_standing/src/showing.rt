//! A keeper that shows what a heap holds, with names of its own for the keys, while members hold objects of it.
ghost use Rattle.embed_standing.specs.Playing.{MayCall, MayPlay};
ghost use Rattle.embed_standing.specs.Shown.{AreShown, paths_shown};
ghost use Rattle.std.specs.Prelude.{◌≡◌, ◌≢◌, All, IfOk, IfSome, false, length};
ghost use Rattle.tide.specs.tide_model.declared.op.Op.TheVariants.{Retire};
ghost use Rattle.tide.specs.tide_mutator.calls.Viewed.{view_of};
ghost use Rattle.tide.specs.tide_report.Ends.{HasRoomForEnds};
ghost use Rattle.tide.specs.tide_retained.Contents.{HasKeysOf};
ghost use Rattle.tide.specs.tide_server.Keepers.{KeeperStands};
ghost use Rattle.tide.specs.tide_server.Members.{IsMemberOf};
ghost use Rattle.tide.specs.tide_server.declared.turning.Turn.TheVariants as Turn;
ghost use Rattle.tide.specs.tide_shape.Lists.{lists_of};
ghost use Rattle.tide.specs.tide_snapshot.Written.{HasNamedKeys};

use std::alloc::Global;
use std::marker::Sync;
use std::sync::Wait;
use std::thread::{Threads, for_each_mut, join, yield_now};
use tide::{
    FreePass, Keeper, Keys, Layout, MemSink, Member, Memory, Op, Opened, Pacing, Paths, Report,
    Shapes, Snapshot, Standing, Start, Turn, fits, open,
};

/// The lines of the cells while both members hold an object: the first one a cell of two slots, the second one of four.
const HELD: &str = "cell #0 class 0 slots 0 - props owner=0 itself=#0 path r0 of 0 #0
cell #64 class 1 slots 1 - - - props owner=1 itself=#64 path r0 of 1 #64
";

/// Makes a call, where it is one of this heap and no other is to be tried again.
fn ask<R: Wait>(rt: &R, standing: &Standing<Shapes>, member: &mut Member, op: Op)
    requires of { IsMemberOf standing.now.heap.key.layout standing.now.heap.table.shared.table_id
        standing.now.hands.shared.table_id member.old }
    requires stays { (view_of member.old.mutator).left ≡ false }
    requires goes_on { op ≢ Retire }
    ensures of { IsMemberOf standing.now.heap.key.layout standing.now.heap.table.shared.table_id
        standing.now.hands.shared.table_id member.new }
    ensures stays { (view_of member.new.mutator).left ≡ false }
{
    if member.retries() || !fits(standing.layout(), op) {
        return;
    }
    // it takes no memory, and what comes of it the keeper shows
    drop(member.call(rt, standing, op, &FreePass));
}

/// Makes an object of a class, which has the number of its member in a slot and under a key, and itself under another.
fn make_object<R: Wait>(
    rt: &R,
    standing: &Standing<Shapes>,
    member: &mut Member,
    class: u8,
    owner: u32,
)
    requires of { IsMemberOf standing.now.heap.key.layout standing.now.heap.table.shared.table_id
        standing.now.hands.shared.table_id member.old }
    requires stays { (view_of member.old.mutator).left ≡ false }
    ensures of { IsMemberOf standing.now.heap.key.layout standing.now.heap.table.shared.table_id
        standing.now.hands.shared.table_id member.new }
    ensures stays { (view_of member.new.mutator).left ≡ false }
{
    let (src, slot, val) = (0, 0, 1);
    ask(rt, standing, member, Op::Alloc { dst: src, class });
    ask(rt, standing, member, Op::Set { dst: val, n: owner });
    ask(rt, standing, member, Op::Put { src, slot, val });
    ask(rt, standing, member, Op::Claim { src });
    ask(rt, standing, member, Op::Add { src, key: 0, val });
    ask(
        rt,
        standing,
        member,
        Op::Add {
            src,
            key: 1,
            val: src,
        },
    );
    ask(rt, standing, member, Op::Release { src });
    ask(rt, standing, member, Op::Drop { dst: val });
}

/// Makes an object, comes to a freeze with it, and leaves in the next part.
fn hold<R: Wait>(rt: &R, standing: &Standing<Shapes>, member: &mut Member, who: usize)
    requires of { IsMemberOf standing.now.heap.key.layout standing.now.heap.table.shared.table_id
        standing.now.hands.shared.table_id member.old }
    requires stays { (view_of member.old.mutator).left ≡ false }
{
    if who == 0 {
        make_object(rt, standing, member, 0, 0);
    } else {
        make_object(rt, standing, member, 1, 1);
    }
    if member.works() && !member.is_over() {
        member.come_early(standing);
    }
    if member.claims() == 0 && !member.retries() {
        drop(member.leave(rt, standing, &FreePass));
    }
}

/// The two members hold their objects, each on a thread of its own.
fn hold_all<R: Threads + Wait + Sync>(rt: &R, standing: &Standing<Shapes>, mut members: Vec<Member>)
    requires may { All (λ member. MayCall standing.now.heap.key.layout standing.now.heap.table.shared.table_id
        standing.now.hands.shared.table_id member) members.items }
{
    for_each_mut(
        rt,
        members.as_mut_slice(),
        2,
        &|who, member|
            requires { MayCall standing.now.heap.key.layout standing.now.heap.table.shared.table_id
                standing.now.hands.shared.table_id member.old }
        { hold(rt, standing, member, who) },
    );
}

/// The keeper turns once all notes are in, and takes a snapshot of the frozen heap.
fn look<R: Wait>(
    rt: &R,
    alloc: Global,
    standing: &Standing<Shapes>,
    keeper: &mut Keeper,
    report: &mut Report,
) -> (Turn, Result<Snapshot, Memory>)
    requires stands { KeeperStands standing.now.heap.key.layout standing.now.heap.table.shared.table_id
        standing.now.hands.shared.table_id keeper.old }
    requires ends { HasRoomForEnds standing.now.heap.key.layout report.old 2 }
    ensures opened { result.0 ≡ Turn.Opened → KeeperStands standing.now.heap.key.layout
        standing.now.heap.table.shared.table_id standing.now.hands.shared.table_id keeper.new }
    ensures keys { IfOk result.1 (HasKeysOf (lists_of standing.now.heap.key.shapes)) }
{
    for _ in rt.forever() {
        if let Some(looked) = keeper.turn_and_snapshot(alloc, standing, report) {
            keeper.rouse(standing);
            return looked;
        }
        yield_now();
    }
    unreachable!()
}

/// Whether the lines of a snapshot are these, where the keys have these names.
fn is_shown(alloc: Global, snapshot: Result<Snapshot, Memory>, names: &Keys, lines: &str) -> bool
    requires named { IfOk snapshot (HasNamedKeys (length names.now)) }
{
    let Ok(snapshot) = snapshot else {
        return false;
    };
    let Ok(mut sink) = MemSink::new(alloc, 1024, 64, Vec::new(alloc)) else {
        return false;
    };
    snapshot.write_lines_named(&mut sink, names).is_ok() && sink.held() == lines.as_bytes()
}

/// The keeper looks while both members hold their objects, and once they have left. Says whether it shows what is held.
fn show<R: Wait>(
    rt: &R,
    alloc: Global,
    standing: &Standing<Shapes>,
    mut keeper: Keeper,
    mut early: Report,
    mut late: Report,
    names: &Keys,
) -> bool
    requires stands { KeeperStands standing.now.heap.key.layout standing.now.heap.table.shared.table_id
        standing.now.hands.shared.table_id keeper }
    requires shown { AreShown (lists_of standing.now.heap.key.shapes) }
    requires early { HasRoomForEnds standing.now.heap.key.layout early 2 }
    requires late { HasRoomForEnds standing.now.heap.key.layout late 2 }
    requires names { length names.now ≡ 2 }
{
    let (turn, held) = look(rt, alloc, standing, &mut keeper, &mut early);
    let Turn::Opened = turn else {
        return false;
    };
    let (turn, left) = look(rt, alloc, standing, &mut keeper, &mut late);
    let is_held = is_shown(alloc, held, names, HELD);
    let is_left = is_shown(alloc, left, names, "");
    turn == Turn::Over && is_held && is_left
}

/// The keeper and the members play side by side. Says whether the keeper shows what is held.
fn play_all<R: Threads + Wait + Sync>(
    rt: &R,
    alloc: Global,
    standing: &Standing<Shapes>,
    keeper: Keeper,
    members: Vec<Member>,
    early: Report,
    late: Report,
    names: &Keys,
) -> bool
    requires stands { KeeperStands standing.now.heap.key.layout standing.now.heap.table.shared.table_id
        standing.now.hands.shared.table_id keeper }
    requires may { All (λ member. MayCall standing.now.heap.key.layout standing.now.heap.table.shared.table_id
        standing.now.hands.shared.table_id member) members.items }
    requires shown { AreShown (lists_of standing.now.heap.key.shapes) }
    requires early { HasRoomForEnds standing.now.heap.key.layout early 2 }
    requires late { HasRoomForEnds standing.now.heap.key.layout late 2 }
    requires names { length names.now ≡ 2 }
{
    let (is_shown, ()) = join(
        rt,
        || -> bool
            requires { KeeperStands standing.now.heap.key.layout standing.now.heap.table.shared.table_id
                standing.now.hands.shared.table_id keeper
                × AreShown (lists_of standing.now.heap.key.shapes)
                × HasRoomForEnds standing.now.heap.key.layout early 2
                × HasRoomForEnds standing.now.heap.key.layout late 2
                × (length names.now ≡ 2) }
        { show(rt, alloc, standing, keeper, early, late, names) },
        || -> ()
            requires { All (λ member. MayCall standing.now.heap.key.layout standing.now.heap.table.shared.table_id
                standing.now.hands.shared.table_id member) members.items }
        { hold_all(rt, standing, members) },
    );
    is_shown
}

/// The names of the two keys.
fn names_of_keys(alloc: Global) -> Result<Keys, Memory>
    ensures two { IfOk result (λ names. length names ≡ 2) }
{
    let mut names = Keys::new(alloc);
    names.add(alloc, b"owner")?;
    names.add(alloc, b"itself")?;
    Ok(names)
}

/// The path of the two keys.
fn paths(alloc: Global) -> Result<Paths, Memory>
    ensures shown { IfOk result (λ paths. paths ≡ paths_shown) }
{
    let mut path = Vec::new(alloc);
    path.push(0)?;
    path.push(1)?;
    let mut paths = Paths::new(alloc);
    paths.push(path)?;
    Ok(paths)
}

/// Opens a heap of 64 cells of two slots and 64 of four for two members. `None` where its shapes were refused.
fn open_heap(alloc: Global) -> Result<Option<Opened<Shapes>>, Memory>
    ensures opened { IfOk result (λ found. IfSome found (λ made. MayPlay made.standing.heap.key.layout
        made.standing.heap.table.shared.table_id made.standing.hands.shared.table_id made.keeper
        made.members.items made.helpers.items)) }
    ensures shown { IfOk result (λ found. IfSome found (λ made. AreShown (lists_of made.standing.heap.key.shapes))) }
{
    let layout = Layout::new([1, 1, 0, 0, 0], [2, 0, 0, 0, 0], 4, 2, 0, 2, 0);
    let pacing = Pacing {
        calls: 100,
        visits: 100,
        headroom: 1000,
        trigger: 0,
    };
    let Ok(shapes) = Shapes::new(alloc, &paths(alloc)?) else {
        return Ok(None);
    };
    let start = Start::new(alloc, layout, shapes)?;
    Ok(Some(open(alloc, start, pacing)?))
}

/// Two members hold an object each while the keeper looks, and leave. Whether it shows both objects, and nothing then.
pub fn what_is_held_is_shown<R: Threads + Wait + Sync>(
    rt: &R,
    alloc: Global,
) -> Result<bool, Memory> {
    let names = names_of_keys(alloc)?;
    let Some(opened) = open_heap(alloc)? else {
        return Ok(false);
    };
    let Opened {
        standing,
        keeper,
        members,
        ..
    } = opened;
    let room = 2 * standing.layout().cells();
    let early = Report::new(alloc, 2, room)?;
    let late = Report::new(alloc, 2, room)?;
    Ok(play_all(rt, alloc, &standing, keeper, members, early, late, &names))
}
