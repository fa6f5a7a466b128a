//! Operations on strong and weak handles.
ghost use Rattle.std.specs.Prelude.{None};
ghost use Rattle.tide_model.specs.Lawful.{FitsLayout};
ghost use Rattle.tide_plain.specs.calls.Calls.{IsCall, MayCallStore};

use crate::stored::Contents;
use tide_model::{Op, Reply};

/// Puts what a register holds into a strong handle.
pub fn strong_set(contents: &mut Contents, who: u32, at: u16, val: u8) -> Reply
    requires caller { MayCallStore contents.old who }
    requires served { FitsLayout contents.old.layout (Op.StrongSet at val) }
    ensures { IsCall contents.old contents.new who (Op.StrongSet at val) result None }
{
    let value = contents.register(who, val);
    contents.set_strong(at, value);
    Reply::Done
}

/// Reads a strong handle into a register.
pub fn strong_get(contents: &mut Contents, who: u32, dst: u8, at: u16) -> Reply
    requires caller { MayCallStore contents.old who }
    requires served { FitsLayout contents.old.layout (Op.StrongGet dst at) }
    ensures { IsCall contents.old contents.new who (Op.StrongGet dst at) result None }
{
    let value = contents.strong_handles()[usize::from(at)];
    contents.fill(who, dst, value);
    Reply::Seen(value)
}

/// Puts what a register holds into a weak handle.
pub fn weak_set(contents: &mut Contents, who: u32, at: u16, val: u8) -> Reply
    requires caller { MayCallStore contents.old who }
    requires served { FitsLayout contents.old.layout (Op.WeakSet at val) }
    ensures { IsCall contents.old contents.new who (Op.WeakSet at val) result None }
{
    let value = contents.register(who, val);
    contents.set_weak(at, value);
    Reply::Done
}

/// Reads a weak handle into a register.
pub fn weak_get(contents: &mut Contents, who: u32, dst: u8, at: u16) -> Reply
    requires caller { MayCallStore contents.old who }
    requires served { FitsLayout contents.old.layout (Op.WeakGet dst at) }
    ensures { IsCall contents.old contents.new who (Op.WeakGet dst at) result None }
{
    let value = contents.weak_handles()[usize::from(at)];
    contents.fill(who, dst, value);
    Reply::Seen(value)
}
