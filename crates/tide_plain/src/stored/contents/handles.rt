//! Changes of a handle.
ghost use Rattle.std.specs.Prelude.{◌<◌};

use crate::stored::contents::Contents;
use tide_model::Val;

impl Contents {
    ghost use Rattle.tide_model.specs.Numbers.{put_at};
    ghost use Rattle.tide_plain.specs.stored.Contents.{state_of, Leaves};

    /// A strong handle gets another value.
    pub fn set_strong(&mut self, at: u16, value: Val)
        requires { at < self.old.layout.strong }
        ensures { Leaves self.old self.new (record (state_of self.old) {
          strong = put_at (state_of self.old).strong at value;
        }) }
    {
        self.handles.set_strong(at, value);
    }

    /// A weak handle gets another value.
    pub fn set_weak(&mut self, at: u16, value: Val)
        requires { at < self.old.layout.weak }
        ensures { Leaves self.old self.new (record (state_of self.old) {
          weak = put_at (state_of self.old).weak at value;
        }) }
    {
        self.handles.set_weak(at, value);
    }
}
