use zns_io::{NoMemory, ReadErr};

/// Why a comparison with an input ended early.
#[derive(Clone, Copy, Debug, PartialEq, Eq)]
pub enum CompareErr {
    /// Memory ran out.
    NoMemory,

    /// A read failed.
    Failed,

    /// The input is too long.
    Over,

    /// The offset in the input at which the two first differ, or one of them ends.
    Differs { offset: u64 },
}

impl From<NoMemory> for CompareErr {
    ghost use Rattle.zns_program.specs.declared.compare_err.CompareErr.TheVariants as compare_err;
    ghost use Rattle.std.specs.Prelude.{◌≡◌};

    ghost from_gives = { λ _ e. e ≡ compare_err.NoMemory };

    fn from(_error: NoMemory) -> CompareErr {
        CompareErr::NoMemory
    }
}

impl From<ReadErr> for CompareErr {
    ghost use Rattle.std.specs.Prelude.{◌≡◌};
    ghost use Rattle.zns_program.specs.Making.{compare_err_of};

    ghost from_gives = { λ e c. c ≡ compare_err_of e };

    fn from(error: ReadErr) -> CompareErr {
        match error {
            ReadErr::NoMemory => CompareErr::NoMemory,
            ReadErr::Failed => CompareErr::Failed,
            ReadErr::Over => CompareErr::Over,
        }
    }
}
