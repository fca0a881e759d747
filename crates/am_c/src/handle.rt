//! A handle is a struct of one pointer, which C holds and never looks inside.

ghost use Rattle.std.specs.Prelude.{◌≡◌, Option, Some, None, option_map};
ghost use Rattle.am_c.specs.declared.session.Session.{Session as State};
ghost use Rattle.am_c.specs.Handles.{held};

use crate::parts::RawBox;
use crate::session::Session;
use std::alloc::Global;
use std::marker::Model;

/// What a handle points to, for C.
#[repr(C)]
pub struct Opaque {
    hidden: u8,
}

/// A node's handle: null, or the address of a session. Dropping one frees nothing: only `take` gives the session back.
#[repr(C)]
#[derive(Drop)]
pub struct Handle {
    at: *mut Opaque,
    pub ghost session: { Option State },
}

impl Model for Handle {
    ghost also_owns = { λ h. held h.at h.session };
}

impl Handle {
    /// One that is closed.
    pub(crate) fn closed() -> Handle
        ensures { result.session ≡ None }
    {
        Handle {
            at: std::ptr::null_mut(),
        }
    }

    /// One that is open, with the session of these parts.
    pub(crate) fn of(parts: RawBox<Session, Global>) -> Handle
        ensures { result.session ≡ Some parts.value }
    {
        let RawBox { ptr, alloc: _ } = parts;
        Handle {
            at: ptr as *mut Opaque,
        }
    }

    /// The parts of its session, where it is open.
    pub(crate) fn take(self, alloc: Global) -> Option<RawBox<Session, Global>>
        ensures { self.session ≡ option_map (λ parts. parts.value) result }
    {
        let Handle { at } = self;
        if at.is_null() {
            return None;
        }
        Some(RawBox {
            ptr: at as *mut Session,
            alloc,
        })
    }
}
