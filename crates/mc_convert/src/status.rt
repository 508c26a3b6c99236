ghost use Rattle.std.specs.Prelude.{◌≡◌};
ghost use Rattle.mc_convert.specs.Statuses.{status_number, status_of};

use mc_base::{Failed, NoMemory};
use mc_io::ReadStop;

/// How a run ended.
#[derive(Clone, Copy, Debug, PartialEq, Eq)]
pub enum Status {
    /// each record was written
    Done,
    /// each record was answered, and one at least is refused
    SomeRefused,
    /// the words are no command's; nothing was read or written
    Usage,
    /// a read failed
    ReadFault,
    /// a write failed
    WriteFault,
    /// memory ran out
    Memory,
    /// an input is longer than its source allows
    InputLimit,
}

impl Status {
    /// The number with which the program ends.
    pub fn number(self) -> u8
        ensures { result ≡ status_number self }
    {
        self as u8
    }
}

/// Why a run stopped before its end.
#[derive(Clone, Copy, Debug, PartialEq, Eq)]
pub enum Halt {
    ReadFault,
    InputLimit,
    WriteFault,
    NoMemory,
}

impl Halt {
    pub fn status(self) -> Status
        ensures { result ≡ status_of self }
    {
        match self {
            Halt::ReadFault => Status::ReadFault,
            Halt::InputLimit => Status::InputLimit,
            Halt::WriteFault => Status::WriteFault,
            Halt::NoMemory => Status::Memory,
        }
    }
}

impl From<ReadStop> for Halt {
    ghost use Rattle.std.specs.Prelude.{◌≡◌};
    ghost use Rattle.mc_convert.specs.Statuses.{halt_of};

    ghost from_gives = { λ stop halt. halt ≡ halt_of stop };

    fn from(stop: ReadStop) -> Halt {
        match stop {
            ReadStop::ReadFault => Halt::ReadFault,
            ReadStop::InputLimit => Halt::InputLimit,
            ReadStop::NoMemory => Halt::NoMemory,
        }
    }
}

impl From<NoMemory> for Halt {
    ghost use Rattle.std.specs.Prelude.{◌≡◌};
    ghost use Rattle.mc_convert.specs.declared.status.Halt.TheVariants.{NoMemory};

    ghost from_gives = { λ _ halt. halt ≡ NoMemory };

    fn from(_: NoMemory) -> Halt {
        Halt::NoMemory
    }
}

/// A write has failed; a read that fails is told by its reader.
impl From<Failed> for Halt {
    ghost use Rattle.std.specs.Prelude.{◌≡◌};
    ghost use Rattle.mc_convert.specs.declared.status.Halt.TheVariants.{WriteFault};

    ghost from_gives = { λ _ halt. halt ≡ WriteFault };

    fn from(_: Failed) -> Halt {
        Halt::WriteFault
    }
}
