//! Why work ended early.
ghost use Rattle.intake.specs.declared.faults.OutputFault.TheVariants.{Memory as NoMemoryToWrite};
ghost use Rattle.intake.specs.declared.faults.AnswerFault.TheVariants.{Memory as NoMemoryToAnswer};
ghost use Rattle.intake.specs.declared.faults.SessionFault.TheVariants.{Memory as NoMemoryToGoOn};
ghost use Rattle.std.specs.Prelude.{◌≡◌};

use std::alloc::{AllocError, AllocFailed};

/// Why something was not written whole.
#[derive(Clone, Copy, Debug, PartialEq, Eq)]
pub enum OutputFault {
    /// The sink failed.
    Write,
    /// Memory ran out.
    Memory,
}

impl From<AllocError> for OutputFault {
    ghost from_gives = { λ _ e. e ≡ NoMemoryToWrite };

    fn from(_: AllocError) -> OutputFault {
        OutputFault::Memory
    }
}

impl<T: Drop> From<AllocFailed<T>> for OutputFault {
    ghost from_gives = { λ _ e. e ≡ NoMemoryToWrite };

    fn from(_: AllocFailed<T>) -> OutputFault {
        OutputFault::Memory
    }
}

/// Why a request was not answered.
#[derive(Clone, Copy, Debug, PartialEq, Eq)]
pub enum AnswerFault {
    /// The sink failed.
    Write,
    /// The disk failed.
    Disk,
    /// Memory ran out.
    Memory,
}

impl From<OutputFault> for AnswerFault {
    ghost use Rattle.std.specs.Prelude.{◌≡◌};
    ghost use Rattle.intake.specs.Faults.{answer_fault_of};

    ghost from_gives = { λ o e. e ≡ answer_fault_of o };

    fn from(fault: OutputFault) -> AnswerFault {
        match fault {
            OutputFault::Write => AnswerFault::Write,
            OutputFault::Memory => AnswerFault::Memory,
        }
    }
}

impl From<AllocError> for AnswerFault {
    ghost from_gives = { λ _ e. e ≡ NoMemoryToAnswer };

    fn from(_: AllocError) -> AnswerFault {
        AnswerFault::Memory
    }
}

impl<T: Drop> From<AllocFailed<T>> for AnswerFault {
    ghost from_gives = { λ _ e. e ≡ NoMemoryToAnswer };

    fn from(_: AllocFailed<T>) -> AnswerFault {
        AnswerFault::Memory
    }
}

/// Why a session over an input ended early.
#[derive(Clone, Copy, Debug, PartialEq, Eq)]
pub enum SessionFault {
    /// The source failed.
    Read,
    /// The sink failed.
    Write,
    /// The disk failed.
    Disk,
    /// Memory ran out.
    Memory,
    /// The input is longer than the office takes.
    TooLong,
}

impl From<AnswerFault> for SessionFault {
    ghost use Rattle.std.specs.Prelude.{◌≡◌};
    ghost use Rattle.intake.specs.Faults.{session_fault_of};

    ghost from_gives = { λ o e. e ≡ session_fault_of o };

    fn from(fault: AnswerFault) -> SessionFault {
        match fault {
            AnswerFault::Write => SessionFault::Write,
            AnswerFault::Disk => SessionFault::Disk,
            AnswerFault::Memory => SessionFault::Memory,
        }
    }
}

impl From<OutputFault> for SessionFault {
    ghost use Rattle.std.specs.Prelude.{◌≡◌};
    ghost use Rattle.intake.specs.Faults.{answer_fault_of, session_fault_of};

    ghost from_gives = { λ o e. e ≡ session_fault_of (answer_fault_of o) };

    fn from(fault: OutputFault) -> SessionFault {
        match fault {
            OutputFault::Write => SessionFault::Write,
            OutputFault::Memory => SessionFault::Memory,
        }
    }
}

impl From<AllocError> for SessionFault {
    ghost from_gives = { λ _ e. e ≡ NoMemoryToGoOn };

    fn from(_: AllocError) -> SessionFault {
        SessionFault::Memory
    }
}

impl<T: Drop> From<AllocFailed<T>> for SessionFault {
    ghost from_gives = { λ _ e. e ≡ NoMemoryToGoOn };

    fn from(_: AllocFailed<T>) -> SessionFault {
        SessionFault::Memory
    }
}
