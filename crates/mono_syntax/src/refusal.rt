use crate::leaf::Place;
use std::alloc::{AllocError, AllocFailed};
use thiserror::Error;

/// Why a script is refused. The numbers of the language's reference group them: where two reasons meet at one place,
/// the one that stands first here counts.
#[derive(Clone, Copy, Debug, PartialEq, Eq)]
pub enum Reason {
    BadChar,
    Tab,
    BadDedent,
    OpenBracket,
    BadName,
    BadNumber,
    BadString,
    Syntax,
    UnknownName,
    Twice,
    Misused,
    RecursiveClass,
    Inconsistent,
    NoField,
    Arity,
    NotCallable,
    TooManyTypes,
    TypeTooLarge,
    TooManyFields,
    TooManyParameters,
    TooManyArguments,
    TooManyNames,
    TooManyFunctions,
    TooManyClasses,
    TooManySites,
    TooLong,
    /// The script is fine, and this version of the program can't do it yet.
    NotBuilt,
}

/// A refusal of a script: the reason, and the place at fault.
#[derive(Clone, Copy, Debug, PartialEq, Eq)]
pub struct Refusal {
    pub place: Place,
    pub reason: Reason,
}

/// Why a phase gave nothing: the script is refused, or there was no memory.
#[derive(Clone, Copy, Debug, PartialEq, Eq, Error)]
pub enum LoadFault {
    #[error("the script is refused")]
    Refused(Refusal),
    #[error("out of memory")]
    Memory,
}

impl From<AllocError> for LoadFault {
    ghost use Rattle.std.specs.Prelude.{◌≡◌};
    ghost use Rattle.mono_syntax.specs.declared.refusal.LoadFault.TheVariants.{Memory};

    ghost from_gives = { λ _ e. e ≡ Memory };

    fn from(_error: AllocError) -> LoadFault {
        LoadFault::Memory
    }
}

impl<T: Drop> From<AllocFailed<T>> for LoadFault {
    ghost use Rattle.std.specs.Prelude.{◌≡◌};
    ghost use Rattle.mono_syntax.specs.declared.refusal.LoadFault.TheVariants.{Memory};

    ghost from_gives = { λ _ e. e ≡ Memory };

    fn from(_error: AllocFailed<T>) -> LoadFault {
        LoadFault::Memory
    }
}
