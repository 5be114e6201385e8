ghost use Rattle.std.specs.Prelude.{◌≡◌};
ghost use Rattle.drive_book.specs.Outcomes.{refusal_with, plain_success, told};

use zns_types::Code;

// Dword 0 of an event: a notice, that a zone descriptor changed, and the log page that lists the
// zones. Dword 1 is the namespace.
const EVENT: u32 = 0x00bf_ef02;

/// What became of a command.
#[derive(Clone, Copy, Debug, PartialEq, Eq)]
pub struct Outcome {
    /// Its status.
    pub code: Code,

    /// The first dword of its result.
    pub dw0: u32,

    /// The second dword of its result.
    pub dw1: u32,

    /// The number of bytes that it read.
    pub len: u32,

    /// The command identifier of the event request that an excursion answered.
    pub event: Option<u16>,

    /// Whether it is an event request that waits, and gets no entry now.
    pub waits: bool,
}

impl Outcome {
    /// A command that is refused.
    pub fn refused(code: Code) -> Outcome
        ensures { result ≡ refusal_with code }
    {
        Outcome {
            code,
            dw0: 0,
            dw1: 0,
            len: 0,
            event: None,
            waits: false,
        }
    }

    /// A command that succeeds, with an empty result.
    pub fn done() -> Outcome
        ensures { result ≡ plain_success }
    {
        Outcome::refused(Code::SUCCESS)
    }

    /// An event request that is told of an event.
    pub fn told() -> Outcome
        ensures { result ≡ told }
    {
        Outcome {
            dw0: EVENT,
            dw1: 1,
            ..Outcome::done()
        }
    }
}
