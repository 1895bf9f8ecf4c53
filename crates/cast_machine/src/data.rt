use crate::map::NameMap;
use mono_list::{Shared, Stack};
use mono_syntax::{CastBranch, CastExpr, Lines, Name, Op, StmtList, Ty, Val};
use sqlite_items::Items;

/// How a run ends. A number is a site's.
#[derive(Clone, Copy, Debug, PartialEq, Eq)]
pub enum End {
    /// The main block came to its end.
    Done,
    /// A value didn't fit the type that its site asks for.
    Blame(u32),
    ZeroDivision(u32),
    /// The result of an operator isn't from -2^47 to 2^47-1.
    Overflow(u32),
    /// A name was read before it was bound.
    Unbound(u32),
    /// A thread has taken as many steps as the setting.
    Fuel,
    HeapFull,
    PrintFull,
    /// 256 threads have been made.
    ThreadLimit,
    /// A thread would have had over 16,384 items.
    DepthLimit,
}

/// The limits of a run. Fuel is the number of steps of each thread, 1 to 2^40; heap and print are words, 1 to 4,194,304
/// and 1 to 1,048,576.
#[derive(Clone, Copy, Debug, PartialEq, Eq)]
pub struct Settings {
    pub fuel: u64,
    pub heap: u32,
    pub print: u32,
}

/// A field of an object: its recorded type and its value.
#[derive(Drop)]
pub struct Cell {
    pub ty: Shared<Ty>,
    pub value: Val,
}

/// An object: its class's number, and its cells by the fields' names.
#[derive(Drop)]
pub struct Object {
    pub class: u32,
    pub cells: NameMap<Cell>,
    /// How many of its cells are still to be stored, and by which thread. An object that waits shows no cell.
    pub waits: u32,
    pub maker: u32,
}

/// The pair for which an obligation has strengthened the inner value: the value, an object, and the type.
#[derive(Drop)]
pub struct Ready {
    pub value: Val,
    pub ty: Shared<Ty>,
}

/// A work item. A number that names a site, a function or a class is its place in the script's list; `at` is the place
/// of a value on the value list, 0 for the top.
#[derive(Drop)]
pub enum Work {
    /// The statements of a block from this one on.
    Block(StmtList, u64),
    /// This statement of a block.
    Stmt(StmtList, u64),
    Store(Name),
    Forget,
    /// The branches of an `if`, what stands behind `else`, and the branch whose condition is on top.
    Branch(Shared<Items<CastBranch>>, Option<StmtList>, u64),
    Loop(Shared<CastExpr>, StmtList),
    Turn(Shared<CastExpr>, StmtList),
    Eval(Shared<CastExpr>),
    /// The second part of `and` or `or`, and the bool at which the first part decides.
    Short(bool, Shared<CastExpr>),
    Neg(u32),
    Not,
    /// An operator, with its Operator and Arithmetic sites where they stand.
    Binary(Op, Option<u32>, Option<u32>),
    Read(Option<u32>, Name),
    /// An object of a class, from the arguments on top.
    New(u32),
    /// A call with its Call site, and an Argument site or none for each argument.
    Call(Option<u32>, Items<Option<u32>>),
    Start(Name, Option<u32>, Items<Option<u32>>),
    /// A fit of the argument at a place of the value list.
    Arg {
        site: u32,
        to: Shared<Ty>,
        at: u64,
    },
    Cast(u32),
    Result(u32),
    /// The fit whose obligations stand above it.
    Fitted {
        site: u32,
        to: Shared<Ty>,
        at: u64,
    },
    /// A call of a function at its merged type, with so many arguments.
    Enter {
        func: u32,
        merged: Shared<Ty>,
        count: u64,
    },
    Begin {
        name: Name,
        func: u32,
        merged: Shared<Ty>,
        count: u64,
    },
    /// The end of a function's body, with its Return site where one stands.
    Fall(Option<u32>),
    Join(u32),
    Leave,
    /// A field whose recorded type is to become at least as precise as `to`.
    Obligation {
        class: u32,
        object: u32,
        field: Name,
        to: Shared<Ty>,
        ready: Option<Ready>,
    },
    /// A write: its Member and Write sites, the field's static type and name, and the type to which the value is fitted.
    Write {
        member: Option<u32>,
        write: Option<u32>,
        is: Shared<Ty>,
        field: Name,
        fitted: Option<Shared<Ty>>,
    },
    Print(u64),
}

/// A call that is under way: its names with values and with threads, the threads that it started, the type that its
/// result is asked at (none for the main block), its work and its values.
#[derive(Drop)]
pub struct Frame {
    pub names: NameMap<Option<Val>>,
    pub handles: NameMap<Option<u32>>,
    pub started: Items<u32>,
    pub asked: Option<Shared<Ty>>,
    pub work: Stack<Work>,
    pub values: Stack<Val>,
}

/// What a thread is doing.
#[derive(Drop)]
pub enum State {
    /// The frame on top, and those below it.
    Running(Frame, Stack<Frame>),
    Failing(End),
    Finished(Val),
    Stopped,
}

/// A thread, with the type that its result is asked at and the number of its steps.
#[derive(Drop)]
pub struct Thread {
    pub asked: Option<Shared<Ty>>,
    pub state: State,
    pub steps: u64,
}

/// What a fit of a value to a type finds: that it holds, maybe with a function narrowed; that it is an object with the
/// type's names, whose fields are to be strengthened; or that it doesn't fit.
#[derive(Drop)]
pub enum Fit {
    Holds(Val),
    Opens { class: u32, base: u32 },
    Unfit,
}

/// What an operator makes of two integers: an integer that is in range, a truth value, or an error.
#[derive(Clone, Copy, Debug, PartialEq, Eq)]
pub enum Counted {
    Int(i64),
    Truth(bool),
    ZeroDivision,
    Overflow,
}

/// What an operator gives.
#[derive(Drop)]
pub enum Operated {
    Gives(Val),
    /// An operand is of the wrong kind.
    Unfit,
    ZeroDivision,
    Overflow,
}

/// What an item that looks at one cell decides by it.
#[derive(Drop)]
pub enum Verdict {
    NoRow,
    Goes(Frame),
    Fails(End),
    Sets(Cell, Frame),
}

/// What a step changes beside its own thread.
#[derive(Drop)]
pub enum Change {
    Same,
    /// The cell of this field of the object at this address.
    Sets { base: u32, field: Name, cell: Cell },
    Adds(Object),
    Says(Items<Val>),
    Begins(Thread),
    Ends(End),
}

/// What the row of a running thread's top item says.
#[derive(Drop)]
pub enum Outcome {
    /// No row applies.
    NoRow,
    /// The thread waits for another.
    Waits,
    Moves(Change, State),
}

/// What a run shows: the printed lines, and the end once it is recorded.
#[derive(Drop)]
pub struct Observation {
    pub lines: Lines,
    pub end: Option<End>,
}
