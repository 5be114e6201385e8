ghost use Rattle.std.specs.Prelude.{◌≡◌};

use std::alloc::AllocFailed;
use std::fmt;
use thiserror::Error;
use zns_io::NoMemory;

/// What is wrong with an input.
#[derive(Clone, Copy, Debug, PartialEq, Eq)]
pub enum Reason {
    /// The input ends early.
    Short,

    /// The input doesn't begin as a session does.
    Magic,

    /// A number in the header fits no drive, or a reserved byte of the header isn't zero.
    Header,

    /// A record names a queue that the drive doesn't have.
    Queue,

    /// Reserved bytes of a record aren't zero.
    Reserved,

    /// The length in a record isn't that of the host data for its entry.
    Length,

    /// Bytes follow the last record.
    Trailing,

    /// A line of a host script means nothing.
    HostLine,

    /// The result doesn't begin as a result does.
    ResultMagic,

    /// The result is for a different number of commands.
    ResultCount,

    /// An order names a queue that has no more commands.
    ResultOrder,
}

impl fmt::Display for Reason {
    ghost use Rattle.std.specs.Prelude.{Some};
    ghost use Rattle.session_file.specs.ReasonTexts.{reason_text};

    ghost output = { λ r. Some (reason_text r) };

    fn fmt<W: fmt::Write>(&self, f: &mut fmt::Formatter<W>) -> fmt::Result {
        f.write_str(match self {
            Reason::Short => "Short",
            Reason::Magic => "Magic",
            Reason::Header => "Header",
            Reason::Queue => "Queue",
            Reason::Reserved => "Reserved",
            Reason::Length => "Length",
            Reason::Trailing => "Trailing",
            Reason::HostLine => "HostLine",
            Reason::ResultMagic => "ResultMagic",
            Reason::ResultCount => "ResultCount",
            Reason::ResultOrder => "ResultOrder",
        })
    }
}

/// What is too large.
#[derive(Clone, Copy, Debug, PartialEq, Eq)]
pub enum Which {
    Input,
    Zones,
    ZoneSize,
    Queues,
    Depth,
    Commands,

    /// The bytes of host data.
    Sent,

    /// The bytes that the commands ask for.
    Replies,
}

impl fmt::Display for Which {
    ghost use Rattle.std.specs.Prelude.{Some};
    ghost use Rattle.session_file.specs.WhichTexts.{which_text};

    ghost output = { λ w. Some (which_text w) };

    fn fmt<W: fmt::Write>(&self, f: &mut fmt::Formatter<W>) -> fmt::Result {
        f.write_str(match self {
            Which::Input => "Input",
            Which::Zones => "Zones",
            Which::ZoneSize => "ZoneSize",
            Which::Queues => "Queues",
            Which::Depth => "Depth",
            Which::Commands => "Commands",
            Which::Sent => "Sent",
            Which::Replies => "Replies",
        })
    }
}

/// Why bytes aren't a session, or aren't the front of a result.
#[derive(Clone, Copy, Debug, PartialEq, Eq, Error)]
pub enum FileErr {
    #[error("no memory")]
    NoMemory,

    /// The input is wrong at an offset from its first byte.
    #[error("bad file: {reason:?} at {offset}")]
    Bad { reason: Reason, offset: u64 },

    /// A number is over its limit.
    #[error("too large: {which:?} {number}")]
    Large { which: Which, number: u64 },
}

/// The error that the input is wrong at `offset`.
pub fn bad(reason: Reason, offset: usize) -> FileErr
    ensures { result ≡ FileErr.Bad reason offset }
{
    FileErr::Bad {
        reason,
        offset: offset as u64,
    }
}

/// The error that `number` is over its limit.
pub fn large(which: Which, number: u64) -> FileErr
    ensures { result ≡ FileErr.Large which number }
{
    FileErr::Large { which, number }
}

impl From<NoMemory> for FileErr {
    ghost use Rattle.std.specs.Prelude.{◌≡◌};
    ghost use Rattle.session_file.specs.declared.file_err.FileErr.TheVariants as file_err;

    ghost from_gives = { λ _ e. e ≡ file_err.NoMemory };

    fn from(_error: NoMemory) -> FileErr {
        FileErr::NoMemory
    }
}

impl<T: Drop> From<AllocFailed<T>> for FileErr {
    ghost use Rattle.std.specs.Prelude.{◌≡◌};
    ghost use Rattle.session_file.specs.declared.file_err.FileErr.TheVariants as file_err;

    ghost from_gives = { λ _ e. e ≡ file_err.NoMemory };

    fn from(_error: AllocFailed<T>) -> FileErr {
        FileErr::NoMemory
    }
}
