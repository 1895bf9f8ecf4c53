ghost use Rattle.std.specs.Prelude.{◌≡◌, IfOk};
ghost use Rattle.script_rules.specs.Occurrences.{at};

use mono_syntax::{Name, Place, Word};
use std::alloc::AllocError;

/// What a name does where it stands.
#[derive(Clone, Copy, Debug, PartialEq, Eq)]
pub enum Role {
    /// It names a class at its definition.
    Class,
    /// It names a function at its definition.
    Function,
    Field,
    Parameter,
    /// It is assigned without an annotation.
    Assigned,
    /// It is assigned with an annotation.
    Annotated,
    /// A start statement of this name begins.
    Started,
    /// A start statement of this name ends.
    Ended,
    /// It is read in an expression, and isn't the callee of a call.
    Read,
    /// It is the callee of a call.
    Called,
    Joined,
    /// It stands in a type.
    Typed,
}

/// A name with its place and what it does there.
#[derive(Drop)]
pub struct Occurrence {
    pub role: Role,
    pub text: Name,
    pub place: Place,
}

impl Occurrence {
    /// A word in a role.
    pub fn new(role: Role, word: &Word) -> Result<Occurrence, AllocError>
        ensures { IfOk result (λ o. o ≡ at role word.now) }
    {
        let text = word.text.share()?;
        Ok(Occurrence {
            role,
            text,
            place: word.place,
        })
    }
}
