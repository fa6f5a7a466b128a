//! Any operation: which function answers it.
ghost use Rattle.std.specs.Prelude.{◌≡◌, [], None};
ghost use Rattle.tide_model.specs.Lawful.{FitsLayout};
ghost use Rattle.tide_plain.specs.stored.Contents.{state_of};
ghost use Rattle.tide_plain.specs.calls.Calls.{IsCall, MayCallStore};

use crate::calls::allocation::{alloc, table};
use crate::calls::claims::{claim, release, unclaim};
use crate::calls::groups::group;
use crate::calls::handles::{strong_get, strong_set, weak_get, weak_set};
use crate::calls::pairs::{pair_delete, pair_get, pair_set};
use crate::calls::properties::{add, get_property, set_property};
use crate::calls::registers::{drop_register, move_register, set};
use crate::calls::slots::{get, put};
use crate::stored::Contents;
use tide_model::{Op, Reply};

/// The mutator retires, and its registers keep nothing any more.
fn retire(contents: &mut Contents, who: u32) -> Reply
    requires caller { MayCallStore contents.old who }
    requires released { (state_of contents.old).claims who ≡ [] }
    ensures { IsCall contents.old contents.new who Op.Retire result None }
{
    contents.retire(who);
    Reply::Done
}

/// Answers an operation, and tells the array that it took.
pub fn answer(contents: &mut Contents, who: u32, op: Op) -> (Reply, Option<u32>)
    requires caller { MayCallStore contents.old who }
    requires fits { FitsLayout contents.old.layout op }
    requires released { op ≡ Op.Retire → (state_of contents.old).claims who ≡ [] }
    ensures { IsCall contents.old contents.new who op result.0 result.1 }
{
    match op {
        Op::Alloc { dst, class } => (alloc(contents, who, dst, class), None),
        Op::Table { dst } => (table(contents, who, dst), None),
        Op::Get { dst, src, slot } => (get(contents, who, dst, src, slot), None),
        Op::Put { src, slot, val } => (put(contents, who, src, slot, val), None),
        Op::Move { dst, src } => (move_register(contents, who, dst, src), None),
        Op::Set { dst, n } => (set(contents, who, dst, n), None),
        Op::Drop { dst } => (drop_register(contents, who, dst), None),
        Op::Claim { src } => (claim(contents, who, src), None),
        Op::Release { src } => (release(contents, who, src), None),
        Op::Unclaim => (unclaim(contents, who), None),
        Op::Add { src, key, val } => add(contents, who, src, key, val),
        Op::GetProp { dst, src, key } => (get_property(contents, who, dst, src, key), None),
        Op::SetProp { src, key, val } => (set_property(contents, who, src, key, val), None),
        Op::StrongSet { at, val } => (strong_set(contents, who, at, val), None),
        Op::StrongGet { dst, at } => (strong_get(contents, who, dst, at), None),
        Op::WeakSet { at, val } => (weak_set(contents, who, at, val), None),
        Op::WeakGet { dst, at } => (weak_get(contents, who, dst, at), None),
        Op::PairSet { src, key, val } => (pair_set(contents, who, src, key, val), None),
        Op::PairGet { dst, src, key } => (pair_get(contents, who, dst, src, key), None),
        Op::PairDel { src, key } => (pair_delete(contents, who, src, key), None),
        Op::Group { src, n } => (group(contents, who, src, n), None),
        Op::Collect => (Reply::Asked, None),
        Op::Retire => (retire(contents, who), None),
    }
}
