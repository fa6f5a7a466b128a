//! What a call asked and was answered, on a line. It knows nothing of sinks.
ghost use Rattle.std.specs.Prelude.{◌≡◌, ◌+◌, ◌≤◌, ◌++◌, length};
ghost use Rattle.tide_text.specs.lines.Line.{refusal_text, reply_text, val_text};
ghost use Rattle.tide_text.specs.lines.OpText.{HasText, op_text};

use crate::lines::line::{LONGEST_ID, Line};
use crate::work::Keys;
use tide_model::{Op, Refusal, Reply, Val};

/// A bound on the bytes of an operation.
pub const LONGEST_OP: usize = 40;

/// A bound on the bytes of a reply.
pub const LONGEST_REPLY: usize = 24;

impl<const ROOM: usize> Line<ROOM> {
    /// An operation, as a workload with these keys writes it.
    #[tactic(auto, unfolding(crate::specs::lines::OpText::op_text))]
    pub fn op(&mut self, keys: &Keys, op: Op) -> &mut Self
        requires text { HasText keys.now op }
        requires room { length self.old + LONGEST_OP ≤ ROOM }
        ensures same_reference { result.ghost_name ≡ self.entry.ghost_name }
        ensures value { result.now ≡ self.old ++ op_text keys.now op }
        ensures grown { length result.now ≤ length self.old + LONGEST_OP }
    {
        match op {
            Op::Alloc { dst, class } => self.text("alloc").register(dst).operand(class),
            Op::Table { dst } => self.text("table").register(dst),
            Op::Get { dst, src, slot } => self.text("get").registers(dst, src).operand(slot),
            Op::Put { src, slot, val } => {
                self.text("put").register(src).operand(slot).register(val)
            }
            Op::Move { dst, src } => self.text("move").registers(dst, src),
            Op::Set { dst, n } => self.text("set").register(dst).operand(n),
            Op::Drop { dst } => self.text("drop").register(dst),
            Op::Claim { src } => self.text("claim").register(src),
            Op::Release { src } => self.text("release").register(src),
            Op::Unclaim => self.text("unclaim"),
            Op::Add { src, key, val } => self.text("add").property(keys, src, key).register(val),
            Op::GetProp { dst, src, key } => {
                self.text("getp").register(dst).property(keys, src, key)
            }
            Op::SetProp { src, key, val } => {
                self.text("setp").property(keys, src, key).register(val)
            }
            Op::StrongSet { at, val } => self.text("strong").operand(at).register(val),
            Op::StrongGet { dst, at } => self.text("sget").register(dst).operand(at),
            Op::WeakSet { at, val } => self.text("weak").operand(at).register(val),
            Op::WeakGet { dst, at } => self.text("wget").register(dst).operand(at),
            Op::PairSet { src, key, val } => self.text("pair").registers(src, key).register(val),
            Op::PairGet { dst, src, key } => self.text("pget").register(dst).registers(src, key),
            Op::PairDel { src, key } => self.text("pdel").registers(src, key),
            Op::Group { src, n } => self.text("group").register(src).operand(n),
            Op::Collect => self.text("collect"),
            Op::Retire => self.text("retire"),
        }
    }

    /// What an operation was answered.
    #[tactic(auto, unfolding(crate::specs::lines::Line::reply_text))]
    pub fn reply(&mut self, reply: Reply) -> &mut Self
        requires { length self.old + LONGEST_REPLY ≤ ROOM }
        ensures same_reference { result.ghost_name ≡ self.entry.ghost_name }
        ensures value { result.now ≡ self.old ++ reply_text reply }
        ensures grown { length result.now ≤ length self.old + LONGEST_REPLY }
    {
        match reply {
            Reply::Done => self.text("ok"),
            Reply::Born(id) => self.cell(id),
            Reply::Seen(val) => self.val(val),
            Reply::Asked => self.text("asked"),
            Reply::Refused(refusal) => self.refusal(refusal),
        }
    }

    /// A value that was read.
    #[tactic(auto, unfolding(crate::specs::lines::Line::val_text))]
    pub fn val(&mut self, val: Val) -> &mut Self
        requires { length self.old + LONGEST_ID ≤ ROOM }
        ensures same_reference { result.ghost_name ≡ self.entry.ghost_name }
        ensures value { result.now ≡ self.old ++ val_text val }
        ensures grown { length result.now ≤ length self.old + LONGEST_ID }
    {
        match val {
            Val::Empty => self.text("-"),
            Val::Int(n) => self.number(n),
            Val::Cell(id) => self.cell(id),
        }
    }

    /// Why an operation was refused.
    #[tactic(auto, unfolding(crate::specs::lines::Line::refusal_text))]
    fn refusal(&mut self, refusal: Refusal) -> &mut Self
        requires { length self.old + LONGEST_REPLY ≤ ROOM }
        ensures same_reference { result.ghost_name ≡ self.entry.ghost_name }
        ensures value { result.now ≡ self.old ++ refusal_text refusal }
        ensures grown { length result.now ≤ length self.old + LONGEST_REPLY }
    {
        match refusal {
            Refusal::NotCell { reg } => self.text("r").number(reg).text(" is no cell"),
            Refusal::IsTable => self.text("is a table"),
            Refusal::NotTable => self.text("no table"),
            Refusal::NoSlot { slot } => self.text("no slot").operand(slot),
            Refusal::Held { by } => self.text("held by").operand(by),
            Refusal::NotHeld => self.text("not held"),
            Refusal::Present => self.text("present"),
            Refusal::Absent => self.text("absent"),
            Refusal::NoShape => self.text("no shape"),
            Refusal::PairsFull => self.text("pairs full"),
            Refusal::ClaimsFull => self.text("claims full"),
            Refusal::Full { class } => self.text("full").operand(class),
        }
    }
}
