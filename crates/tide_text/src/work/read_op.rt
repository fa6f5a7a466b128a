//! Which operation a text is. It knows nothing of the texts that a run prints.
ghost use Rattle.std.specs.Prelude.{◌≡◌};
ghost use Rattle.tide_text.specs.work.Words.{words_in};
ghost use Rattle.tide_text.specs.work.ReadOp.{op_of, op_named, property_op_named, handle_op_named, pair_op_named, alone};

use crate::work::op_arguments::OpArguments;
use crate::work::words::{is_trimmed, next_word};
use tide_model::Op;

/// The operation that a text is, under these limits.
pub fn op_of(text: &[u8], limits: &OpArguments<'_>) -> Option<Op>
    ensures { result ≡ op_of limits.now text.now }
{
    if !is_trimmed(text) {
        return None;
    }
    let (name, arguments) = next_word(text)?;
    op_named(name, arguments, limits)
}

/// The operation of this name with these arguments.
#[tactic(auto, unfolding(crate::specs::work::ReadOp::op_named))]
fn op_named(name: &[u8], arguments: &[u8], limits: &OpArguments<'_>) -> Option<Op>
    ensures { result ≡ op_named limits.now name.now (words_in arguments.now) }
{
    match name {
        b"alloc" => limits.alloc(arguments),
        b"get" => limits.get(arguments),
        b"put" => limits.put(arguments),
        b"move" => limits.move_register(arguments),
        b"set" => limits.set(arguments),
        b"drop" => limits.drop_register(arguments),
        b"collect" => alone(Op::Collect, arguments),
        _ => property_op_named(name, arguments, limits),
    }
}

/// The operation on claims or properties of this name, or one on handles, tables or groups.
#[tactic(auto, unfolding(crate::specs::work::ReadOp::property_op_named))]
fn property_op_named(name: &[u8], arguments: &[u8], limits: &OpArguments<'_>) -> Option<Op>
    ensures { result ≡ property_op_named limits.now name.now (words_in arguments.now) }
{
    match name {
        b"claim" => limits.claim(arguments),
        b"release" => limits.release(arguments),
        b"unclaim" => alone(Op::Unclaim, arguments),
        b"add" => limits.add(arguments),
        b"getp" => limits.get_property(arguments),
        b"setp" => limits.set_property(arguments),
        _ => handle_op_named(name, arguments, limits),
    }
}

/// The operation on handles of this name, or one on tables or groups.
#[tactic(auto, unfolding(crate::specs::work::ReadOp::handle_op_named))]
fn handle_op_named(name: &[u8], arguments: &[u8], limits: &OpArguments<'_>) -> Option<Op>
    ensures { result ≡ handle_op_named limits.now name.now (words_in arguments.now) }
{
    match name {
        b"strong" => limits.strong_set(arguments),
        b"sget" => limits.strong_get(arguments),
        b"weak" => limits.weak_set(arguments),
        b"wget" => limits.weak_get(arguments),
        _ => pair_op_named(name, arguments, limits),
    }
}

/// The operation on tables or groups of this name.
#[tactic(auto, unfolding(crate::specs::work::ReadOp::pair_op_named))]
fn pair_op_named(name: &[u8], arguments: &[u8], limits: &OpArguments<'_>) -> Option<Op>
    ensures { result ≡ pair_op_named limits.now name.now (words_in arguments.now) }
{
    match name {
        b"table" => limits.table(arguments),
        b"pair" => limits.pair_set(arguments),
        b"pget" => limits.pair_get(arguments),
        b"pdel" => limits.pair_delete(arguments),
        b"group" => limits.group(arguments),
        _ => None,
    }
}

/// An operation that has no arguments.
fn alone(op: Op, arguments: &[u8]) -> Option<Op>
    ensures { result ≡ alone op (words_in arguments.now) }
{
    match next_word(arguments) {
        Some(_) => None,
        None => Some(op),
    }
}
