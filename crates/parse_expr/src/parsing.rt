ghost use Rattle.std.specs.Prelude.{◌≡◌, ℕ, ◌<◌, ◌≤◌, length, chars, IfOk, IfErr, MatchResult, Some, None};
ghost use Rattle.mono_syntax.specs.Ann.{Ann as AnnTree};
ghost use Rattle.mono_syntax.specs.Expr.{Expr as ExprTree};
ghost use Rattle.mono_syntax.specs.declared.refusal.LoadFault.TheVariants.{Memory};
ghost use Rattle.mono_syntax.specs.Limits.{greatest_weight};
ghost use Rattle.py_lexer.specs.Lexes.{Lexes};
ghost use Rattle.parse_expr.specs.Types.{IsType};
ghost use Rattle.parse_expr.specs.computed.TypeReading.{type_tree};
ghost use Rattle.parse_expr.specs.Grammar.{IsExpr};
ghost use Rattle.parse_expr.specs.Stretches.{IsRead, IsReadFault};

use crate::machine::{Mode, Next, TypeMode, TypeNext, Weighed};
use crate::reader::step;
use crate::types::type_step;
use mono_list::Stack;
use mono_syntax::{Ann, Expr, LoadFault, Place, Reason, Refusal};
use py_lexer::Token;
use spelled_tokens::spell;
use std::alloc::Global;

/// The refusal of a token that can't go on.
pub fn refused(place: Place) -> LoadFault
    ensures { result ≡ LoadFault.Refused (record { place = place; reason = Reason.Syntax }) }
{
    LoadFault::Refused(Refusal {
        place,
        reason: Reason::Syntax,
    })
}

/// The answer for an expression, or none, where reading stops at a position.
fn expr_answer(found: Option<Expr>, at: usize, place: Place) -> Result<(Expr, usize), LoadFault>
    ensures accepted { IfOk result (λ r. (found ≡ Some r.0) × (r.1 ≡ at)) }
    ensures refused { IfErr result (λ f. (found ≡ None) × (f ≡ LoadFault.Refused (record { place = place; reason = Reason.Syntax }))) }
{
    match found {
        Some(expr) => Ok((expr, at)),
        None => Err(refused(place)),
    }
}

/// The same for a type.
fn type_answer(found: Option<Weighed>, at: usize, place: Place) -> Result<(Ann, usize), LoadFault>
    ensures accepted { IfOk result (λ r. (type_tree found ≡ Some r.0) × (r.1 ≡ at)) }
    ensures refused { IfErr result (λ f. (type_tree found ≡ None) × (f ≡ LoadFault.Refused (record { place = place; reason = Reason.Syntax }))) }
{
    match found {
        Some(Weighed { ann, .. }) => Ok((ann, at)),
        None => Err(refused(place)),
    }
}

/// Reads tokens from a position on until one stops the reading.
fn read_expr(
    alloc: Global,
    tokens: &[Token],
    text: &str,
    from: usize,
    room: u32,
) -> Result<(Expr, usize), LoadFault>
    requires lexed { Lexes (chars text.now) tokens.now }
    requires from { from < length tokens.now }
    requires room { room ≤ greatest_weight }
    ensures accepted { IfOk result (λ r. IsRead (IsExpr room) text.now tokens.now from r.0 r.1) }
    ensures refused { IfErr result (IsReadFault (IsExpr room) text.now tokens.now from) }
{
    let mut mode = Mode::Want(Stack::new(alloc));
    let mut at = from;
    loop {
        let token = spell(alloc, text, &tokens[at])?;
        match step(alloc, room as usize, mode, token)? {
            Next::Go(next) => mode = next,
            Next::Stop(found) => return expr_answer(found, at, tokens[at].place),
        }
        at += 1;
    }
}

/// The expression that begins at a position, and the position behind it. Each token is spelled once, and the depth of the
/// expression costs no stack.
pub fn parse_expr(
    alloc: Global,
    tokens: &[Token],
    text: &str,
    from: usize,
    room: u32,
) -> Result<(Expr, usize), LoadFault>
    requires lexed { Lexes (chars text.now) tokens.now }
    requires from { from < length tokens.now }
    requires room { room ≤ greatest_weight }
    ensures accepted { IfOk result (λ r. IsRead (IsExpr room) text.now tokens.now from r.0 r.1) }
    ensures refused { IfErr result (IsReadFault (IsExpr room) text.now tokens.now from) }

    // A stretch that is a tree is accepted with it, unless memory runs out.
    ensures complete { (tree : ExprTree) (end : ℕ) → IsRead (IsExpr room) text.now tokens.now from tree end →
        MatchResult result (λ r. (r.0 ≡ tree) × (r.1 ≡ end)) (λ fault. fault ≡ Memory) }
{
    read_expr(alloc, tokens, text, from, room)
}

/// Reads tokens from a position on until one stops the reading.
fn read_type(
    alloc: Global,
    tokens: &[Token],
    text: &str,
    from: usize,
    room: u32,
) -> Result<(Ann, usize), LoadFault>
    requires lexed { Lexes (chars text.now) tokens.now }
    requires from { from < length tokens.now }
    requires room { room ≤ greatest_weight }
    ensures accepted { IfOk result (λ r. IsRead (IsType room) text.now tokens.now from r.0 r.1) }
    ensures refused { IfErr result (IsReadFault (IsType room) text.now tokens.now from) }
{
    let mut mode = TypeMode::Want(Stack::new(alloc));
    let mut at = from;
    loop {
        let token = spell(alloc, text, &tokens[at])?;
        match type_step(alloc, room as usize, mode, token)? {
            TypeNext::Go(next) => mode = next,
            TypeNext::Stop(found) => return type_answer(found, at, tokens[at].place),
        }
        at += 1;
    }
}

/// The type that begins at a position, and the position behind it.
pub fn parse_type(
    alloc: Global,
    tokens: &[Token],
    text: &str,
    from: usize,
    room: u32,
) -> Result<(Ann, usize), LoadFault>
    requires lexed { Lexes (chars text.now) tokens.now }
    requires from { from < length tokens.now }
    requires room { room ≤ greatest_weight }
    ensures accepted { IfOk result (λ r. IsRead (IsType room) text.now tokens.now from r.0 r.1) }
    ensures refused { IfErr result (IsReadFault (IsType room) text.now tokens.now from) }

    // A stretch that is a tree is accepted with it, unless memory runs out.
    ensures complete { (tree : AnnTree) (end : ℕ) → IsRead (IsType room) text.now tokens.now from tree end →
        MatchResult result (λ r. (r.0 ≡ tree) × (r.1 ≡ end)) (λ fault. fault ≡ Memory) }
{
    read_type(alloc, tokens, text, from, room)
}
