//! A machine in the memory of a C program.
ghost use Rattle.std.specs.Prelude.{◌≡◌, true, false, Bool};
ghost use Rattle.vga_run.specs.declared.machine.Machine.{Machine};
ghost use Rattle.vga_c.specs.Sealed.{owns_machine_if, machine_coded};

use crate::box_parts::BoxParts;
use std::alloc::Global;
use std::marker::Model;
use vga_run::machine::Machine;

/// A pointer to a machine on the heap, or nothing. C sees only the pointer.
#[repr(C)]
#[derive(Drop)]
pub struct Sealed {
    ptr: *mut u8,
    alloc: Global,
    pub(crate) ghost full: { Bool },
    pub(crate) ghost machine: { Machine } by { machine_coded },
}

impl Model for Sealed {
    ghost also_owns = { λ s. owns_machine_if s.full s.alloc s.ptr s.machine };
}

impl Sealed {
    /// A pointer to no machine.
    pub(crate) fn empty(alloc: Global) -> Sealed
        ensures { result.full ≡ false }
    {
        Sealed {
            ptr: std::ptr::null_mut(),
            alloc,
        }
    }

    /// The machine of these parts.
    pub(crate) fn of_parts(parts: BoxParts<Machine, Global>) -> Sealed
        ensures { (result.full ≡ true) × (result.machine ≡ parts.value) }
    {
        let BoxParts { ptr, alloc } = parts;
        Sealed {
            ptr: ptr as *mut u8,
            alloc,
        }
    }

    /// The machine's pointer and its allocator.
    pub(crate) fn into_parts(self) -> BoxParts<Machine, Global>
        requires { self.full ≡ true }
        ensures { result.value ≡ self.machine }
    {
        let Sealed { ptr, alloc } = self;
        BoxParts {
            ptr: ptr as *mut Machine,
            alloc,
        }
    }
}

// A machine shares nothing, so it may move to another thread.
unsafe impl Send for Sealed {}
