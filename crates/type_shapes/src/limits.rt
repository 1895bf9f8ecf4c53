/// The types of a closed list, at most.
pub const MOST_TYPES: usize = 4095;
