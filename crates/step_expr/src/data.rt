use mono_syntax::Value;
use thiserror::Error;

/// Why an operator gives no value.
#[derive(Clone, Copy, Debug, PartialEq, Eq, Error)]
pub enum OpFault {
    /// An operand is no integer.
    #[error("operand is no integer")]
    Unfit,
    #[error("division by zero")]
    ZeroDivision,
    /// The result isn't from -2^47 to 2^47-1.
    #[error("overflow")]
    Overflow,
}

/// What a fit of a value to a type comes to.
#[derive(Clone, Copy, Debug, PartialEq, Eq)]
pub enum Fit {
    /// The value has the type; a function as it is narrowed.
    Holds(Value),
    /// An object with the type's names, whose fields are still to be strengthened.
    Opens,
    Unfit,
}
