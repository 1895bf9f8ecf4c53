use crate::texts::TextList;
use mono_syntax::{Name, Op, TypeNo};
use name_places::NamePlaces;
use sqlite_items::Items;
use type_numbers::TypeTable;

/// An expression by numbers. A part is a node of the same block, a name its slot, a text or the name of a field its number among
/// the texts, and the arguments of a call or an object are a list.
#[derive(Clone, Copy, Debug, PartialEq, Eq)]
pub enum Node {
    Int(u64),
    Text(u32),
    Bool(bool),
    Nil,
    /// The Name site and the slot.
    Local(u32, u32),
    Function(u32),
    /// The Arithmetic site and the part.
    Neg(u32, u32),
    Not(u32),
    /// The operator, the Operator and Arithmetic sites where they stand, and the parts.
    Binary(Op, Option<u32>, Option<u32>, u32, u32),
    And(u32, u32),
    Or(u32, u32),
    /// The Member site where one stands, the object and the field.
    Read(Option<u32>, u32, u32),
    /// The class and the list of its arguments.
    New(u32, u32),
    /// The Call site where one stands, the callee and the list of the arguments.
    Call(Option<u32>, u32, u32),
    /// The Cast site and the part.
    Fit(u32, u32),
    /// The Name site and the thread's slot.
    Join(u32, u32),
}

/// One of a list of arguments: its Argument site where one stands, and its node. What is printed has no site.
#[derive(Clone, Copy, Debug, PartialEq, Eq)]
pub struct ArgNode {
    pub site: Option<u32>,
    pub node: u32,
}

/// A statement by numbers.
#[derive(Clone, Copy, Debug, PartialEq, Eq)]
pub enum StmtNode {
    Pass,
    /// The Return site where one stands, and the value.
    Return(Option<u32>, u32),
    /// The list of what is printed.
    Print(u32),
    /// The slot and the value.
    Assign(u32, u32),
    /// The Member and Write sites where they stand, the number of the field's static type, the object, the field and the value.
    Write(Option<u32>, Option<u32>, TypeNo, u32, u32, u32),
    /// The thread's slot, the Call site where one stands, the callee and the list of the arguments.
    Start(u32, Option<u32>, u32, u32),
    Plain(u32),
    /// The list of the branches, and the body behind `else` where there is one.
    If(u32, Option<u32>),
    /// The condition and the body.
    While(u32, u32),
}

/// A branch of an `if`: the node of its condition and the number of its body.
#[derive(Clone, Copy, Debug, PartialEq, Eq)]
pub struct BranchNode {
    pub condition: u32,
    pub body: u32,
}

/// The code of a block: its expressions, the lists of arguments, the statements, the bodies as lists of statements, and the
/// lists of branches, each by number from 0.
#[derive(Drop)]
pub struct Code {
    pub nodes: Items<Node>,
    pub lists: Items<Items<ArgNode>>,
    pub stmts: Items<StmtNode>,
    pub bodies: Items<Items<u32>>,
    pub branches: Items<Items<BranchNode>>,
}

/// The names of a block by slot: those that hold values, and those that hold threads.
#[derive(Drop)]
pub struct Slots {
    pub names: NamePlaces,
    pub threads: NamePlaces,
}

/// The texts of a program, each once, the table of its types, and the code of a block.
#[derive(Drop)]
pub struct Tables {
    pub texts: TextList,
    pub table: TypeTable,
    pub code: Code,
}

/// The texts of a program, each once, and the table of its types.
#[derive(Drop)]
pub struct Pool {
    pub texts: TextList,
    pub table: TypeTable,
}

/// A block by numbers: its names by slot, those that hold values and those that hold threads, its code, and the number of the body
/// that it runs.
#[derive(Drop)]
pub struct Block {
    pub names: Items<Name>,
    pub threads: Items<Name>,
    pub code: Code,
    pub body: u32,
}

/// A block by numbers, and the texts and the table of the program.
#[derive(Drop)]
pub struct WithBlock {
    pub block: Block,
    pub pool: Pool,
}
