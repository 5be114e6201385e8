ghost use Rattle.std.specs.Prelude.{◌≡◌, IfOk};
ghost use Rattle.zns_program.specs.Numbers.{number_of};
ghost use Rattle.zns_program.specs.Lines.{line_of};

use crate::compare_err::CompareErr;
use crate::plain::TOO_LONG;
use session_file::{FileErr, Reason, Which};
use std::alloc::Global;
use std::fmt;
use zns_io::{Bytes, NoMemory, ReadErr};

/// How a run of the program ended.
#[derive(Clone, Copy, Debug, PartialEq, Eq)]
pub enum Status {
    /// The whole output was written.
    Ok,

    /// Memory ran out.
    NoMemory,

    /// The words mean nothing.
    Usage,

    /// The input couldn't be read.
    ReadFault,

    /// The output couldn't be written.
    WriteFault,

    /// The input isn't what the words ask for, at an offset from its first byte.
    BadFile { reason: Reason, offset: u64 },

    /// A number of the input, its length, or the number of commands to make is over its limit.
    TooLarge { which: Which, number: u64 },

    /// A result isn't that of its session. `offset`, from the input's first byte, is where the two
    /// first differ or one of them ends.
    Differs { offset: u64 },
}

impl From<NoMemory> for Status {
    ghost use Rattle.zns_program.specs.declared.status.Status.TheVariants as status;
    ghost use Rattle.std.specs.Prelude.{◌≡◌};

    ghost from_gives = { λ _ s. s ≡ status.NoMemory };

    fn from(_error: NoMemory) -> Status {
        Status::NoMemory
    }
}

impl From<FileErr> for Status {
    ghost use Rattle.std.specs.Prelude.{◌≡◌};
    ghost use Rattle.zns_program.specs.Making.{status_of};

    ghost from_gives = { λ e s. s ≡ status_of e };

    fn from(error: FileErr) -> Status {
        match error {
            FileErr::NoMemory => Status::NoMemory,
            FileErr::Bad { reason, offset } => Status::BadFile { reason, offset },
            FileErr::Large { which, number } => Status::TooLarge { which, number },
        }
    }
}

impl From<ReadErr> for Status {
    ghost use Rattle.std.specs.Prelude.{◌≡◌};
    ghost use Rattle.zns_program.specs.Making.{status_of_reading};

    ghost from_gives = { λ e s. s ≡ status_of_reading e };

    fn from(error: ReadErr) -> Status {
        match error {
            ReadErr::NoMemory => Status::NoMemory,
            ReadErr::Failed => Status::ReadFault,
            ReadErr::Over => TOO_LONG,
        }
    }
}

impl From<CompareErr> for Status {
    ghost use Rattle.std.specs.Prelude.{◌≡◌};
    ghost use Rattle.zns_program.specs.Making.{status_of_comparison};

    ghost from_gives = { λ e s. s ≡ status_of_comparison e };

    fn from(error: CompareErr) -> Status {
        match error {
            CompareErr::NoMemory => Status::NoMemory,
            CompareErr::Failed => Status::ReadFault,
            CompareErr::Over => TOO_LONG,
            CompareErr::Differs { offset } => Status::Differs { offset },
        }
    }
}

impl Status {
    /// The exit status of the program.
    pub fn number(&self) -> u8
        ensures { result ≡ number_of self.now }
    {
        match self {
            Status::Ok => 0,
            Status::NoMemory => 1,
            Status::Usage => 2,
            Status::ReadFault => 3,
            Status::WriteFault => 4,
            Status::BadFile { .. } => 5,
            Status::TooLarge { .. } => 6,
            Status::Differs { .. } => 7,
        }
    }

    /// The line for standard error. It is empty if all is well.
    ///
    /// # Errors
    ///
    /// Memory runs out.
    pub fn line(&self, alloc: Global) -> Result<Bytes, NoMemory>
        ensures { IfOk result (λ line. line ≡ line_of self.now) }
    {
        let line = format!(in alloc; "{self}")?;
        Ok(Bytes::from_vec(line.into_bytes()))
    }
}

impl fmt::Display for Status {
    ghost use Rattle.std.specs.Prelude.{Some};
    ghost use Rattle.zns_program.specs.Lines.{line_of};

    ghost output = { λ s. Some (line_of s) };

    fn fmt<W: fmt::Write>(&self, f: &mut fmt::Formatter<W>) -> fmt::Result {
        match self {
            Status::Ok => Ok(()),
            Status::NoMemory => writeln!(f, "zns_runner: no memory"),
            Status::Usage => writeln!(
                f,
                "zns_runner: usage: one, run, check, show, host, gen NUMBER COUNT"
            ),
            Status::ReadFault => writeln!(f, "zns_runner: read fault"),
            Status::WriteFault => writeln!(f, "zns_runner: write fault"),
            Status::BadFile { reason, offset } => {
                writeln!(f, "zns_runner: bad file: {reason} at {offset}")
            }
            Status::TooLarge { which, number } => {
                writeln!(f, "zns_runner: too large: {which} {number}")
            }
            Status::Differs { offset } => writeln!(f, "zns_runner: differs at {offset}"),
        }
    }
}
