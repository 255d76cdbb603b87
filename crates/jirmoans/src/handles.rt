//! What C holds of a preview.
ghost use Rattle.std.specs.Prelude.{◌≡◌, Some, None, IsNone, is_some, option_map};
ghost use Rattle.std.specs.Box.{box_value};

use crate::session::Session;
use crate::slots::Slot;
use std::alloc::Global;
use std::mem::replace;

/// What C holds of a preview. All zero is one that is not open.
#[repr(C)]
#[derive(Drop)]
pub struct Handle {
    is_open: bool,
    /// The session's box, where one is held.
    pub slot: Slot,
    ghost tells: { is_open ≡ is_some slot.held },
}

impl Handle {
    fn closed(alloc: Global) -> Handle
        ensures { result.slot.held ≡ None }
    {
        Handle {
            is_open: false,
            slot: Slot::empty(alloc),
        }
    }

    /// Takes the session out, if there is one; none is left.
    pub fn take(&mut self, alloc: Global) -> Option<Box<Session>>
        ensures taken { option_map box_value result ≡ self.old.slot.held }
        ensures left { self.new.slot.held ≡ None }
    {
        let taken = replace(self, Handle::closed(alloc));
        if !taken.is_open {
            return None;
        }
        let Handle { slot, .. } = taken;
        Some(slot.into_session())
    }

    /// Puts a session in, where there is none.
    pub fn put(&mut self, session: Box<Session>)
        requires { IsNone self.old.slot.held }
        ensures { self.new.slot.held ≡ Some session.value }
    {
        *self = Handle {
            is_open: true,
            slot: Slot::of(session),
        };
    }
}
