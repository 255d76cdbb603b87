//! What C holds of a session: where it lies on the heap, or nothing.
ghost use Rattle.std.specs.Prelude.{◌≡◌, Some, None, IsSome, option_map};
ghost use Rattle.std.specs.declared.option.Option.{Option};
ghost use Rattle.jirmoans.specs.declared.session.Session.{Session as Held};
ghost use Rattle.jirmoans.specs.Slots.{held_coded, slot_owns};

mod parts;

use crate::session::Session;
use parts::Parts;
use std::alloc::Global;
use std::marker::Model;
use std::ptr::null_mut;

/// Where a session lies on the heap, or nothing. It is let go only where it has nothing.
#[repr(C)]
#[derive(Drop)]
pub struct Slot {
    ptr: *mut (),
    alloc: Global,
    pub ghost held: { Option Held } by { held_coded },
}

impl Model for Slot {
    ghost also_owns = { λ s. slot_owns s.alloc s.ptr s.held };
}

impl Slot {
    /// Nothing. Takes no memory.
    pub fn empty(alloc: Global) -> Slot
        ensures { result.held ≡ None }
    {
        Slot {
            ptr: null_mut(),
            alloc,
        }
    }

    /// A session that is on the heap already.
    pub fn of(session: Box<Session>) -> Slot
        ensures { result.held ≡ Some session.value }
    {
        Slot::of_parts(Parts::of(session))
    }

    /// The session again.
    pub fn into_session(self) -> Box<Session>
        requires { IsSome self.held }
        ensures { Some result.value ≡ self.held }
    {
        self.into_parts().into_box()
    }

    fn of_parts(parts: Parts<Session, Global>) -> Slot
        ensures { result.held ≡ Some parts.value }
    {
        let Parts { ptr, alloc } = parts;
        Slot {
            ptr: ptr as *mut (),
            alloc,
        }
    }

    fn into_parts(self) -> Parts<Session, Global>
        requires { IsSome self.held }
        ensures { Some result.value ≡ self.held }
    {
        let Slot { ptr, alloc } = self;
        Parts {
            ptr: ptr as *mut Session,
            alloc,
        }
    }
}
