ghost use Rattle.std.specs.Prelude.{◌≡◌, ◌++◌, [], ◌∷◌, OnOk, OnErr, IfOk, decimal};
ghost use Rattle.token_lines.specs.declared.printed.Shape.TheVariants as shape;
ghost use Rattle.token_lines.specs.Tokens.{quoted, quoted_byte, op_text, mark_text, truth_text, what_text, text_of, fixed_text};
ghost use Rattle.token_lines.specs.Lines.{space_if};
ghost use Rattle.token_lines.specs.Sheets.{begun, ended, put};

use crate::indent::Indent;
use crate::printed::{Printed, Shape, gap, shape_of};
use mono_syntax::Op;
use spelled_tokens::{Mark, What};
use std::alloc::{AllocError, Global};
use std::marker::Model;

/// The text of lines so far, to which tokens are added one by one. A call that fails for want of memory leaves it as it was.
#[derive(Drop)]
pub struct Page {
    text: Vec<u8>,
    before: Shape,
}

impl Model for Page {
    ghost use Rattle.token_lines.specs.Sheets.{Sheet};

    ghost Value = { Sheet };

    ghost view = { λ p. record { text = p.text.items; before = p.before } };
}

/// The spelling of an operator with two parts.
fn op_text(op: Op) -> &'static [u8]
    ensures { result.now ≡ op_text op }
{
    match op {
        Op::Add => b"+",
        Op::Sub => b"-",
        Op::Mul => b"*",
        Op::Div => b"//",
        Op::Mod => b"%",
        Op::Lt => b"<",
        Op::Le => b"<=",
        Op::Gt => b">",
        Op::Ge => b">=",
        Op::Eq => b"==",
        Op::Ne => b"!=",
    }
}

/// The spelling of a word or a bracket; the layout has none.
fn mark_text(mark: Mark) -> &'static [u8]
    ensures { result.now ≡ mark_text mark }
{
    match mark {
        Mark::Int => b"int",
        Mark::Bool => b"bool",
        Mark::Str => b"str",
        Mark::Dyn => b"Dyn",
        Mark::Callable => b"Callable",
        Mark::OpenSquare => b"[",
        Mark::CloseSquare => b"]",
        Mark::Equals => b"=",
        Mark::Colon => b":",
        Mark::Arrow => b"->",
        Mark::Class => b"class",
        Mark::Def => b"def",
        Mark::Pass => b"pass",
        Mark::Return => b"return",
        Mark::Print => b"print",
        Mark::Start => b"start",
        Mark::If => b"if",
        Mark::Elif => b"elif",
        Mark::Else => b"else",
        Mark::While => b"while",
        Mark::Newline | Mark::Indent | Mark::Dedent | Mark::End | Mark::Unused => b"",
    }
}

/// The spelling of a token that has always the same one; the others have none here.
fn fixed_text(what: &What) -> &'static [u8]
    ensures { result.now ≡ fixed_text what.now }
{
    match what {
        What::Bool(true) => b"True",
        What::Bool(false) => b"False",
        What::Nil => b"None",
        What::Or => b"or",
        What::And => b"and",
        What::Not => b"not",
        What::Operator(op) => op_text(*op),
        What::Dot => b".",
        What::Open => b"(",
        What::Close => b")",
        What::Comma => b",",
        What::Cast => b"cast",
        What::Join => b"join",
        What::Mark(mark) => mark_text(*mark),
        What::Name(_) | What::Number(_) | What::Text(_) => b"",
    }
}

/// Adds a byte of a string, with a backslash where it needs one.
fn put_quoted(text: &mut Vec<u8>, byte: u8) -> Result<(), AllocError>
    ensures { OnOk result (text.new.items ≡ text.old.items ++ quoted_byte byte) }
{
    match byte {
        b'\n' => text.extend_from_slice(b"\\n"),
        b'\t' => text.extend_from_slice(b"\\t"),
        b'\\' => text.extend_from_slice(b"\\\\"),
        b'"' => text.extend_from_slice(b"\\\""),
        _ => {
            text.push(byte)?;
            Ok(())
        }
    }
}

/// Adds a string literal with this value.
fn put_text(text: &mut Vec<u8>, value: &[u8]) -> Result<(), AllocError>
    ensures { OnOk result (text.new.items ≡ text.old.items ++ (34 ∷ (quoted value.now ++ 34 ∷ []))) }
{
    text.push(b'"')?;
    for byte in value {
        put_quoted(text, *byte)?;
    }
    text.push(b'"')?;
    Ok(())
}

fn put_number(alloc: Global, text: &mut Vec<u8>, n: u64) -> Result<(), AllocError>
    ensures { OnOk result (text.new.items ≡ text.old.items ++ decimal n) }
{
    let digits = n.to_string(alloc)?;
    text.extend_from_slice(digits.as_bytes())
}

fn put_what(alloc: Global, text: &mut Vec<u8>, what: &What) -> Result<(), AllocError>
    ensures { OnOk result (text.new.items ≡ text.old.items ++ what_text what.now) }
{
    match what {
        What::Name(name) => text.extend_from_slice(name.as_slice()),
        What::Number(n) => put_number(alloc, text, *n),
        What::Text(value) => put_text(text, value.as_slice()),
        _ => text.extend_from_slice(fixed_text(what)),
    }
}

fn put_printed(alloc: Global, text: &mut Vec<u8>, token: &Printed) -> Result<(), AllocError>
    ensures { OnOk result (text.new.items ≡ text.old.items ++ text_of token.now) }
{
    match token {
        Printed::Minus => text.extend_from_slice(b"-"),
        Printed::Plain(what) => put_what(alloc, text, what),
    }
}

/// A token's text, with a space before it where one stands. It is a text of its own, so that a page takes it whole or not.
fn spaced(alloc: Global, space: bool, token: &Printed) -> Result<Vec<u8>, AllocError>
    ensures { IfOk result (λ piece. piece.items ≡ space_if space ++ text_of token.now) }
{
    let mut piece = Vec::new(alloc);
    if space {
        piece.push(b' ')?;
    }
    put_printed(alloc, &mut piece, token)?;
    Ok(piece)
}

impl Page {
    /// No line.
    pub fn new(alloc: Global) -> Page
        ensures { result ≡ record { text = []; before = shape.Edge } }
    {
        Page {
            text: Vec::new(alloc),
            before: Shape::Edge,
        }
    }

    /// Begins a line that stands in so many blocks.
    pub fn begin(&mut self, indent: &Indent) -> Result<(), AllocError>
        ensures line { OnOk result (self.new ≡ begun self.old indent.now) }
        ensures unchanged { OnErr result (self.new ≡ self.old) }
    {
        self.text.extend_from_slice(indent.as_slice())?;
        self.before = Shape::Edge;
        Ok(())
    }

    /// Adds a token to the line, and a space before it where one stands.
    pub fn put(&mut self, alloc: Global, token: &Printed) -> Result<(), AllocError>
        ensures token { OnOk result (self.new ≡ put self.old token.now) }
        ensures unchanged { OnErr result (self.new ≡ self.old) }
    {
        let shape = shape_of(token);
        let piece = spaced(alloc, gap(self.before, shape), token)?;
        self.text.extend_from_slice(piece.as_slice())?;
        self.before = shape;
        Ok(())
    }

    /// Ends the line.
    pub fn end(&mut self) -> Result<(), AllocError>
        ensures line { OnOk result (self.new ≡ ended self.old) }
        ensures unchanged { OnErr result (self.new ≡ self.old) }
    {
        self.text.push(b'\n')?;
        Ok(())
    }

    /// The bytes of the lines.
    pub fn into_bytes(self) -> Vec<u8>
        ensures { result.items ≡ self.text }
    {
        self.text
    }
}
