//! The handles that C holds. A handle has no `Drop`, and its fields are private to this file: only code of this file
//! could lose a registry.
ghost use Rattle.std.specs.Prelude.{◌≡◌, Some, None};
ghost use Rattle.bcp47_c.specs.Handles.{Held, held_owns, held_coded};
ghost use Rattle.bcp47_c.specs.Records.{Kept};

use crate::blocks::Block;
use crate::opened::Opened;
use std::alloc::Global;
use std::marker::Model;
use std::mem::replace;
use std::ptr::null_mut;

/// A handle of C. It holds a registry, or nothing; bytes that are all zero are a handle that holds nothing. A contract
/// sees what it holds as `held`: the entries of the registry, and what is kept with them. `bcp47_handle_open` and
/// `bcp47_handle_share` open a handle, `bcp47_handle_close` closes it.
#[repr(C)]
pub struct Handle {
    place: *mut u8,
    alloc: Global,
    pub ghost held: { Held } by { held_coded },
}

impl Model for Handle {
    ghost also_owns = { λ h. held_owns h.alloc h.place h.held };
}

impl Handle {
    /// A handle that holds nothing, as its ghost field `held` says. `place` may be any pointer: it is never read.
    fn empty(place: *mut u8, alloc: Global) -> Handle
        ensures { result.held ≡ None }
    {
        Handle { place, alloc }
    }

    /// A handle that holds the registry of a block.
    fn of_block(block: Block<Opened, Global>) -> Handle
        ensures { result.held ≡ Some block.value }
    {
        let Block { place, alloc } = block;
        Handle {
            place: place as *mut u8,
            alloc,
        }
    }

    /// The block of the registry that the handle holds; it must hold one.
    fn into_block(self) -> Block<Opened, Global>
        ghost registry: { Kept }
        requires { self.held ≡ Some registry }
        ensures { result.value ≡ registry }
    {
        let Handle { place, alloc } = self;
        Block {
            place: place as *mut Opened,
            alloc,
        }
    }
}

/// Takes the registry that a handle holds out of it; it must hold one. The handle holds nothing then, and has `alloc`
/// as its allocator.
pub(crate) fn take(alloc: Global, handle: &mut Handle) -> Box<Opened>
    ghost registry: { Kept }
    requires { handle.old.held ≡ Some registry }
    ensures value { result.value ≡ registry }
    ensures empty { handle.new.held ≡ None }
{
    let nowhere: *mut u8 = null_mut();
    replace(handle, Handle::empty(nowhere, alloc))
        .into_block()
        .into_box()
}

/// Puts a registry in a handle, which must hold nothing: a handle is never dropped, so what it held would be lost.
pub(crate) fn put(handle: &mut Handle, opened: Box<Opened>)
    requires { handle.old.held ≡ None }
    ensures { handle.new.held ≡ Some opened.value }
{
    let Handle { place: _, alloc: _ } = replace(handle, Handle::of_block(Block::of(opened)));
}
