//! Why a query has no program.
ghost use Rattle.std.specs.Prelude.{◌≡◌};
ghost use Rattle.package_program.specs.declared.faults.FormFault.TheVariants.{Memory};

use std::alloc::AllocError;
use thiserror::Error;

/// Why a query has no program.
#[derive(Debug, Drop, Error)]
pub enum FormFault {
    /// So many rows pass, and that is more than a program can have variables.
    #[error("{0} rows are candidates")]
    LimitCandidates(u64),
    /// A sum can be larger than a program can have: the goal's for number 0, and else that of the
    /// conjunct with this number, from 1. The total is the first partial sum that is too large, as
    /// the candidates are added up in their order.
    #[error("the sum of conjunct {conjunct} can come to {total}")]
    TooLarge { conjunct: u32, total: u128 },
    #[error("out of memory")]
    Memory(AllocError),
}

impl From<AllocError> for FormFault {
    ghost from_gives = { λ a e. e ≡ Memory a };

    fn from(error: AllocError) -> FormFault {
        FormFault::Memory(error)
    }
}
