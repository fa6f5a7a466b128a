//! Which operations a layout serves. It knows nothing of what a store holds.
ghost use Rattle.std.specs.Prelude.{◌≡◌, ◌↔◌, true};
ghost use Rattle.tide_model.specs.Lawful.{FitsLayout};

use crate::layout::Layout;
use tide_model::Op;

/// Whether an operation's operands are those of the layout: registers, handles, and a class of cells with slots.
pub fn fits(layout: &Layout, op: Op) -> bool
    ensures { (result ≡ true) ↔ FitsLayout layout.now op }
{
    let registers = layout.registers();
    match op {
        Op::Alloc { dst, class } => dst < registers && class < 4,
        Op::Table { dst } | Op::Set { dst, n: _ } | Op::Drop { dst } => dst < registers,
        Op::Claim { src } | Op::Release { src } | Op::Group { src, n: _ } => src < registers,
        Op::Get { dst, src, slot: _ } | Op::Move { dst, src } | Op::GetProp { dst, src, key: _ } =>
            { dst < registers && src < registers }
        Op::Put { src, slot: _, val }
        | Op::Add { src, key: _, val }
        | Op::SetProp { src, key: _, val } => { src < registers && val < registers }
        Op::StrongSet { at, val } => at < layout.strong() && val < registers,
        Op::StrongGet { dst, at } => dst < registers && at < layout.strong(),
        Op::WeakSet { at, val } => at < layout.weak() && val < registers,
        Op::WeakGet { dst, at } => dst < registers && at < layout.weak(),
        Op::PairSet { src, key, val } => src < registers && key < registers && val < registers,
        Op::PairGet { dst, src, key } => dst < registers && src < registers && key < registers,
        Op::PairDel { src, key } => src < registers && key < registers,
        Op::Unclaim | Op::Collect | Op::Retire => true,
    }
}
