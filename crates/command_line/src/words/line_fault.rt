//! Why a command line is refused.
ghost use Rattle.std.specs.Prelude.{◌≡◌};

use clap::error::ErrorKind;
use std::alloc::AllocError;
use std::io::Write;
use thiserror::Error;

/// Why a command line is refused.
#[derive(Debug, Drop, Error)]
pub enum LineFault {
    /// clap refuses it and says why. This also stands for clap itself having no memory.
    #[error(transparent)]
    Refused(clap::Error),
    /// There was not enough memory for the copies of the words.
    #[error("Out of memory.")]
    Memory,
}

ghost use Rattle.command_line.specs.declared.words.line_fault.LineFault.{LineFault};

impl LineFault {
    /// Writes why the line is refused, as far as the writer takes it: clap's text, and then the usage if that text ends
    /// without it, as for an option without a value at the end of the line.
    pub fn write_message<W: Write>(&self, usage: &str, msgs: &mut W) {
        let _ = write!(msgs, "{self}");
        if let LineFault::Refused(error) = self
            && error.kind() == ErrorKind::InvalidValue
        {
            let _ = write!(msgs, "\nUsage: {usage}\n");
        }
    }
}

impl From<AllocError> for LineFault {
    ghost from_gives = { λ _ f. f ≡ LineFault.Memory };

    fn from(_: AllocError) -> LineFault {
        LineFault::Memory
    }
}

impl From<clap::Error> for LineFault {
    ghost from_gives = { λ e f. f ≡ LineFault.Refused e };

    fn from(error: clap::Error) -> LineFault {
        LineFault::Refused(error)
    }
}
