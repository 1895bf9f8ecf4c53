// The parts of a word, as numbers: the type's number in bits 63 to 52, the tag of the value's kind in bits 51 to 48, and the
// value's payload below. A part's unit is what one more of it adds.

/// The numbers of types are below this one.
pub const MOST_TYPES: u64 = 4095;

pub const TYPE_UNIT: u64 = 1 << 52;

/// The tags are below this one, and those of the kinds are 1 to 6.
pub const TAGS: u64 = 16;

pub const TAG_UNIT: u64 = 1 << 48;

pub const INT_TAG: u64 = 1;

pub const BOOL_TAG: u64 = 2;

pub const NIL_TAG: u64 = 3;

pub const TEXT_TAG: u64 = 4;

pub const OBJ_TAG: u64 = 5;

pub const FUN_TAG: u64 = 6;

/// The payloads of the negative integers begin here.
pub const FIRST_NEGATIVE: u64 = 1 << 47;

/// The numbers of texts are below this one.
pub const TEXTS: u64 = 1 << 32;

/// The numbers of classes are below `CLASSES`, and an object's base is below the unit.
pub const CLASSES: u64 = 1 << 10;

pub const CLASS_UNIT: u64 = 1 << 32;

/// The numbers of functions and of merged types are below the unit.
pub const FUNC_UNIT: u64 = 1 << 12;
