use am_base::NoMemory;
use am_text_defs::fault::FieldFault;
use std::alloc::AllocFailed;

/// Why a line isn't taken.
#[derive(Clone, Copy)]
pub enum LineFault {
    /// There was no memory.
    Memory,
    /// No text has it there.
    Field(FieldFault),
}

impl From<NoMemory> for LineFault {
    ghost use Rattle.std.specs.Prelude.{◌≡◌};
    ghost use Rattle.am_audit.specs.declared.fault.LineFault.TheVariants.{Memory};

    ghost from_gives = { λ _ fault. fault ≡ Memory };

    fn from(_: NoMemory) -> LineFault {
        LineFault::Memory
    }
}

impl<T: Drop> From<AllocFailed<T>> for LineFault {
    ghost use Rattle.std.specs.Prelude.{◌≡◌};
    ghost use Rattle.am_audit.specs.declared.fault.LineFault.TheVariants.{Memory};

    ghost from_gives = { λ _ fault. fault ≡ Memory };

    fn from(_: AllocFailed<T>) -> LineFault {
        LineFault::Memory
    }
}

impl From<FieldFault> for LineFault {
    ghost use Rattle.std.specs.Prelude.{◌≡◌};
    ghost use Rattle.am_audit.specs.declared.fault.LineFault.TheVariants.{Field};

    ghost from_gives = { λ field fault. fault ≡ Field field };

    fn from(fault: FieldFault) -> LineFault {
        LineFault::Field(fault)
    }
}

/// Why there is no verdict.
#[derive(Clone, Copy, PartialEq, Eq, Debug)]
pub enum TextRefusal {
    /// There was no memory.
    NoMemory,
    /// It is no text: the first line up to which the lines aren't the beginning of any.
    BadLine { line: u32 },
}
