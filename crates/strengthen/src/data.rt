use mono_syntax::{ClassNo, TypeNo};

/// What a cast asks of a field: that its recorded type be at least as precise as `to`.
#[derive(Clone, Copy, Debug, PartialEq, Eq)]
pub struct Obligation {
    /// The object's first cell.
    pub object: u32,
    pub class: ClassNo,
    /// The field's place among the fields of its object, by name.
    pub field: u32,
    pub to: TypeNo,
    /// The word of the pair that the inner object was made ready for, or 0.
    pub ready: u64,
}

/// What an obligation asks for.
#[derive(Clone, Copy, Debug, PartialEq, Eq)]
pub enum Demand {
    /// The word of the cell of this number.
    Look(u32),
}

/// What is to be done about an obligation.
#[derive(Clone, Copy, Debug, PartialEq, Eq)]
pub enum Verdict {
    /// Nothing: the recorded type is as precise already.
    Dropped,
    /// The inner object's fields are strengthened first, and then this obligation is looked at again.
    Ready(Obligation),
    /// The expected word is exchanged for the new one.
    Set { expected: u64, new: u64 },
    /// Blame: the value fits no type as precise as the recorded one and as what is asked.
    Unfit,
}
