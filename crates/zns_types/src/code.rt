ghost use Rattle.std.specs.Prelude.{◌≡◌, ◌<◌};
ghost use Rattle.zns_types.specs.Statuses.{Status, all_statuses, do_not_retry, success};

use std::marker::Model;

/// The status of a command: the status code type, below 8, and the status code.
///
/// Type 0 has the generic codes (Base Specification 2.0, 3.3.3.2.1), and type 1 those that are
/// specific to a command, of which B6h to BFh are for zones (Zoned Namespace Command Set
/// Specification 1.1, 3.4).
#[derive(Clone, Copy, Debug, PartialEq, Eq)]
pub struct Code {
    pub sct: u8,
    pub sc: u8,
}

impl Model for Code {
    ghost use Rattle.std.specs.Prelude.{◌<◌};
    ghost use Rattle.zns_types.specs.Statuses.{Status};

    ghost Value = { Status };

    ghost view = { λ c. record { sct = c.sct; sc = c.sc } };

    ghost invariant = { λ c. c.sct < 8 };

    ghost inverse = { λ s. record { sct = s.sct; sc = s.sc } };
}

impl Default for Code {
    ghost is_default = { λ c. c ≡ success };

    fn default() -> Code {
        Code::SUCCESS
    }
}

impl Code {
    /// The command did what it asked for.
    pub const SUCCESS: Code = Code { sct: 0, sc: 0x00 };

    /// Invalid Command Opcode: no command of this kind of queue has the opcode.
    pub const INVALID_OPCODE: Code = Code { sct: 0, sc: 0x01 };

    /// Invalid Field in Command: a field has a value that the command doesn't take.
    pub const INVALID_FIELD: Code = Code { sct: 0, sc: 0x02 };

    /// Invalid Namespace or Format: the namespace is not number 1.
    pub const INVALID_NAMESPACE: Code = Code { sct: 0, sc: 0x0b };

    /// LBA Out of Range: the blocks end past the namespace.
    pub const LBA_OUT_OF_RANGE: Code = Code { sct: 0, sc: 0x80 };

    /// Asynchronous Event Request Limit Exceeded: four requests wait.
    pub const EVENT_LIMIT_EXCEEDED: Code = Code { sct: 1, sc: 0x05 };

    /// Invalid Log Page: there is no such page.
    pub const INVALID_LOG_PAGE: Code = Code { sct: 1, sc: 0x09 };

    /// Invalid Zone Operation Request: an Append to a zone with a random write area, a commit
    /// without one, or an Open that asks for one where there can be none.
    pub const INVALID_ZONE_OPERATION: Code = Code { sct: 1, sc: 0xb6 };

    /// ZRWA Resources Unavailable: no more zones may have a random write area.
    pub const ZRWA_RESOURCES_UNAVAILABLE: Code = Code { sct: 1, sc: 0xb7 };

    /// Zone Boundary Error: the blocks end past the capacity, or a Read would cross zones.
    pub const ZONE_BOUNDARY_ERROR: Code = Code { sct: 1, sc: 0xb8 };

    /// Zone Is Full.
    pub const ZONE_FULL: Code = Code { sct: 1, sc: 0xb9 };

    /// Zone Is Read Only.
    pub const ZONE_READ_ONLY: Code = Code { sct: 1, sc: 0xba };

    /// Zone Is Offline.
    pub const ZONE_OFFLINE: Code = Code { sct: 1, sc: 0xbb };

    /// Zone Invalid Write: not at the write pointer, or outside of the random write area.
    pub const ZONE_INVALID_WRITE: Code = Code { sct: 1, sc: 0xbc };

    /// Too Many Active Zones: no more zones may be active.
    pub const TOO_MANY_ACTIVE_ZONES: Code = Code { sct: 1, sc: 0xbd };

    /// Too Many Open Zones: no more zones may be opened, and no other can be closed for this one.
    pub const TOO_MANY_OPEN_ZONES: Code = Code { sct: 1, sc: 0xbe };

    /// Invalid Zone State Transition: the state does not allow the action.
    pub const INVALID_ZONE_STATE_TRANSITION: Code = Code { sct: 1, sc: 0xbf };

    /// All codes, starting with success.
    pub fn all() -> [Code; 17]
        ensures { result ≡ all_statuses }
    {
        [
            Code::SUCCESS,
            Code::INVALID_OPCODE,
            Code::INVALID_FIELD,
            Code::INVALID_NAMESPACE,
            Code::LBA_OUT_OF_RANGE,
            Code::EVENT_LIMIT_EXCEEDED,
            Code::INVALID_LOG_PAGE,
            Code::INVALID_ZONE_OPERATION,
            Code::ZRWA_RESOURCES_UNAVAILABLE,
            Code::ZONE_BOUNDARY_ERROR,
            Code::ZONE_FULL,
            Code::ZONE_READ_ONLY,
            Code::ZONE_OFFLINE,
            Code::ZONE_INVALID_WRITE,
            Code::TOO_MANY_ACTIVE_ZONES,
            Code::TOO_MANY_OPEN_ZONES,
            Code::INVALID_ZONE_STATE_TRANSITION,
        ]
    }

    /// Whether the command would be refused again. This holds for every error other than the lack
    /// of a resource that another command may give back.
    pub fn dnr(self) -> bool
        ensures { result ≡ do_not_retry self }
    {
        self != Code::SUCCESS
            && self != Code::ZRWA_RESOURCES_UNAVAILABLE
            && self != Code::TOO_MANY_ACTIVE_ZONES
            && self != Code::TOO_MANY_OPEN_ZONES
    }
}
