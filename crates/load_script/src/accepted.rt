use mono_syntax::CastScript;
use program_code::Program;

/// An accepted script: the script with its casts, and the same script by numbers with the closed list of the types that it writes.
#[derive(Drop)]
pub struct Accepted {
    pub script: CastScript,
    pub program: Program,
}
