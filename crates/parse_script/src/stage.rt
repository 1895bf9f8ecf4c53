use mono_list::Stack;
use mono_syntax::{Ann, Branch, ClassDef, Expr, FieldDef, Item, Param, Place, Stmt, Word};
use parse_expr::machine::{Mode, TypeMode};
use sqlite_items::Items;

/// What a token is to what stands before it.
#[derive(Clone, Copy)]
pub enum Ending {
    Newline,
    Colon,
    Comma,
    Close,
    Equals,
    Dot,
    Start,
    Elif,
    Else,
    Other,
}

/// The head of a function: its name, its parameters, and the type of its result.
#[derive(Drop)]
pub struct DefHead {
    pub name: Word,
    pub params: Items<Param>,
    pub result: Option<Ann>,
}

/// What the outermost block is: the script's own, or a function's body. The items before come first.
#[derive(Drop)]
pub enum Floor {
    Script(Items<Item>),
    Def(Items<Item>, DefHead),
}

/// A block that is open, with the statements before it in the block round it.
#[derive(Drop)]
pub enum Opened {
    While(Items<Stmt>, Expr),
    /// The block of an `if` or `elif`, with the branches before it.
    Branch(Items<Stmt>, Items<Branch>, Expr),
    Else(Items<Stmt>, Items<Branch>),
}

/// Where a statement stands: the outermost block, the blocks open in it, and the statements before it in the innermost one.
/// Statements of the script's own block are items at once.
#[derive(Drop)]
pub struct Around {
    pub floor: Floor,
    pub opened: Stack<Opened>,
    pub done: Items<Stmt>,
}

/// The head of a block.
#[derive(Drop)]
pub enum Head {
    While(Expr),
    Branch(Items<Branch>, Expr),
    Else(Items<Branch>),
}

/// What an expression is read for.
#[derive(Drop)]
pub enum Use {
    Assign(Word, Option<Ann>),
    Write(Expr, Word),
    Return(Place),
    While,
    Branch(Items<Branch>),
}

/// What arguments in brackets are read for. The place is the bracket's.
#[derive(Drop)]
pub enum Listed {
    Print(Place),
    Start(Word, Place),
}

/// Where the reading of a class stands.
#[derive(Drop)]
pub enum ClassStage {
    Word,
    Name(Word),
    Colon(Word),
    Line(Word),
    /// Behind the INDENT.
    Body(Word),
    Pass(Word),
    PassLine(Word),
    Field(Word, Items<FieldDef>, Word),
    Type(Word, Items<FieldDef>, Word, TypeMode),
    /// Behind a field.
    Fields(Word, Items<FieldDef>),
    Done(ClassDef),
}

/// Where the reading of a function's head stands.
#[derive(Drop)]
pub enum DefStage {
    Word,
    Name(Word),
    /// A parameter or `)` may come.
    Params(Word, Items<Param>),
    Param(Word, Items<Param>, Word),
    Type(Word, Items<Param>, Word, TypeMode),
    Closed(Word, Items<Param>),
    Result(Word, Items<Param>, TypeMode),
    Colon(DefHead),
    Line(DefHead),
    Done(DefHead),
}

/// Where the reading of a script stands.
#[derive(Drop)]
pub enum Stage {
    /// A statement may begin.
    Start(Around),
    /// Behind the block of an `if` or `elif`, with the branches up to it.
    Behind(Around, Items<Branch>),
    /// Behind a simple statement, which is added already: NEWLINE is wanted.
    Line(Around),
    /// Behind a name that begins a statement.
    Named(Around, Word),
    /// In an expression that begins a statement.
    Plain(Around, Mode),
    /// Behind the `.` of what may be a target, with its receiver and the receiver's weight.
    Dotted(Around, Expr, u32),
    /// Behind the name of what may be a target.
    Target(Around, Expr, u32, Word),
    /// In the type of an assignment.
    Typed(Around, Word, TypeMode),
    /// Behind the `=` of an assignment without a type.
    Assigning(Around, Word),
    /// Behind `return`.
    Returning(Around, Place),
    /// In an expression that is read for something.
    Inside(Around, Use, Mode),
    /// Behind `print`.
    PrintWord(Around),
    /// Behind `start`.
    StartWord(Around, Word),
    /// An argument or `)` may come.
    Listing(Around, Listed, Items<Expr>),
    /// In an argument.
    Argument(Around, Listed, Items<Expr>, Mode),
    /// `:` is wanted.
    HeadColon(Around, Head),
    /// NEWLINE is wanted.
    HeadLine(Around, Head),
    /// INDENT is wanted.
    HeadBlock(Around, Head),
    Class(Items<Item>, ClassStage),
    Def(Items<Item>, DefStage),
    /// Behind END.
    Ended(Items<Item>),
}

/// What a token does: the reading goes on, it ends, or it stops.
#[derive(Drop)]
pub enum Turn {
    Go(Stage),
    /// The script ended, with these items.
    Done(Items<Item>),
    Stop,
}

/// The same of a class.
#[derive(Drop)]
pub enum ClassTurn {
    Go(ClassStage),
    Stop,
}

/// The same of a function's head.
#[derive(Drop)]
pub enum DefTurn {
    Go(DefStage),
    Stop,
}
