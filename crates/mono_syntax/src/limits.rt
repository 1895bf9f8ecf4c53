// The limits of the language, each once. Above a limit a script is refused, or its run ends, as the language's reference
// says; the definitions have the same numbers in `specs/Limits.antt`.

/// The bytes of a script, at most.
pub const MOST_BYTES: usize = 1_048_576;

/// The greatest integer, 2^47 - 1. The least is one below its negative.
pub const GREATEST_INTEGER: u64 = 140_737_488_355_327;

/// The weight of an expression or an annotation, at most.
pub const GREATEST_WEIGHT: u32 = 100;

/// The blocks in which a statement lies, at most.
pub const MOST_BLOCKS: usize = 50;

/// The fields of a class, at most.
pub const MOST_FIELDS: usize = 64;

/// The parameters of a function or of a `Callable`, at most.
pub const MOST_PARAMETERS: usize = 8;

/// The arguments of a call, a `print` or a `start`, at most.
pub const MOST_ARGUMENTS: usize = 64;

/// The names of a block, at most.
pub const MOST_NAMES: usize = 4096;

/// The nodes of a type, at most: a type without parts has one, any other one more than its parts.
pub const MOST_NODES: u32 = 1024;

/// The depth of a type, at most: that of a type without parts is one, any other's one more than its parts' greatest.
pub const GREATEST_DEPTH: u32 = 32;

/// The items of a thread, at most: over its frames, one for each frame, its names, its work items and its values.
pub const MOST_ITEMS: usize = 16_384;

/// The threads that a run makes, at most, the main thread among them.
pub const MOST_THREADS: usize = 256;
