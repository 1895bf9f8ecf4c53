ghost use Rattle.std.specs.Prelude.{◌≤◌, length};
ghost use Rattle.mono_syntax.specs.Limits.{most_bytes};

use crate::machine::{Held, Mode, Next, TypeMode, TypeNext, finish, step, type_finish, type_step};
use crate::{parse_expr, parse_type};
use mono_list::Stack;
use mono_syntax::{
    Ann, AnnForm, Expr, ExprKind, GREATEST_WEIGHT, LoadFault, Op, Place, Reason, Refusal, Word,
};
use py_lexer::lex;
use spelled_tokens::{Spelled, What};
use std::alloc::{AllocError, Global};
use std::test::Fail;

/// The expression at the front of a text, and the position behind it.
fn read_expr(alloc: Global, text: &str) -> Result<(Expr, usize), LoadFault>
    requires { length text.now ≤ most_bytes }
{
    let tokens = lex(alloc, text)?;
    if tokens.len() == 0 {
        return Err(LoadFault::Memory);
    }
    parse_expr(alloc, tokens.as_slice(), text, 0, GREATEST_WEIGHT)
}

/// The same for a type.
fn read_type(alloc: Global, text: &str) -> Result<(Ann, usize), LoadFault>
    requires { length text.now ≤ most_bytes }
{
    let tokens = lex(alloc, text)?;
    if tokens.len() == 0 {
        return Err(LoadFault::Memory);
    }
    parse_type(alloc, tokens.as_slice(), text, 0, GREATEST_WEIGHT)
}

fn at(column: u32) -> Place {
    Place { line: 1, column }
}

fn is_word(word: &Word, text: &[u8], column: u32) -> bool {
    word.text.as_slice() == text && word.place == at(column)
}

fn is_local(e: &Expr, text: &[u8], column: u32) -> bool {
    match &e.kind {
        ExprKind::Local(word) => is_word(word, text, column),
        _ => false,
    }
}

fn is_number(e: &Expr, number: u64, column: u32) -> bool {
    match &e.kind {
        ExprKind::Int(place, n) => *n == number && *place == at(column),
        _ => false,
    }
}

/// Whether this is `a.b(1 + 2, 'x',)` at the first column.
fn is_call(e: &Expr) -> bool {
    let ExprKind::Call(bracket, callee, args) = &e.kind else {
        return false;
    };
    let ExprKind::Read(object, field) = &callee.get().kind else {
        return false;
    };
    let [sum, text] = args.as_slice() else {
        return false;
    };
    let ExprKind::Binary(Op::Add, plus, one, two) = &sum.kind else {
        return false;
    };
    let ExprKind::Text(quote, value) = &text.kind else {
        return false;
    };
    *bracket == at(4)
        && is_local(object.get(), b"a", 1)
        && is_word(field, b"b", 3)
        && *plus == at(7)
        && is_number(one.get(), 1, 5)
        && is_number(two.get(), 2, 9)
        && *quote == at(12)
        && value.as_slice() == b"x".as_slice()
}

/// Whether this is `-cast(Callable[[int], Dyn], join(t))` at column 20.
fn is_cast(e: &Expr) -> bool {
    let ExprKind::Neg(minus, part) = &e.kind else {
        return false;
    };
    let ExprKind::Cast(place, ann, value) = &part.get().kind else {
        return false;
    };
    let AnnForm::Fun(params, result) = &ann.what else {
        return false;
    };
    let [param] = params.as_slice() else {
        return false;
    };
    let ExprKind::Join(joined, thread) = &value.get().kind else {
        return false;
    };
    *minus == at(20)
        && *place == at(21)
        && ann.place == at(26)
        && param.place == at(36)
        && matches!(&param.what, AnnForm::Int)
        && result.get().place == at(42)
        && matches!(&result.get().what, AnnForm::Dyn)
        && *joined == at(48)
        && is_word(thread, b"t", 53)
}

/// Whether this is `not (None or True)` at column 61.
fn is_negation(e: &Expr) -> bool {
    let ExprKind::Not(place, part) = &e.kind else {
        return false;
    };
    let ExprKind::Or(left, right) = &part.get().kind else {
        return false;
    };
    let ExprKind::Nil(none) = &left.get().kind else {
        return false;
    };
    let ExprKind::Bool(truth, true) = &right.get().kind else {
        return false;
    };
    *place == at(61) && *none == at(66) && *truth == at(74)
}

/// Whether this is the three of them, as `CALL < CAST and NEGATION`.
fn is_whole(e: &Expr) -> bool {
    let ExprKind::And(left, right) = &e.kind else {
        return false;
    };
    let ExprKind::Binary(Op::Lt, sign, call, cast) = &left.get().kind else {
        return false;
    };
    *sign == at(18) && is_call(call.get()) && is_cast(cast.get()) && is_negation(right.get())
}

/// Whether this is `(1 - a) - b`, without the brackets.
fn is_chain(e: &Expr) -> bool {
    let ExprKind::Binary(Op::Sub, outer, chain, last) = &e.kind else {
        return false;
    };
    let ExprKind::Binary(Op::Sub, inner, first, second) = &chain.get().kind else {
        return false;
    };
    *outer == at(7)
        && *inner == at(3)
        && is_number(first.get(), 1, 1)
        && is_local(second.get(), b"a", 5)
        && is_local(last.get(), b"b", 9)
}

/// Whether this is `a < b`.
fn is_comparison(e: &Expr) -> bool {
    let ExprKind::Binary(Op::Lt, sign, left, right) = &e.kind else {
        return false;
    };
    *sign == at(3) && is_local(left.get(), b"a", 1) && is_local(right.get(), b"b", 5)
}

/// Whether this is `Callable[[P, int], None]` at column 14.
fn is_inner_type(ann: &Ann) -> bool {
    let AnnForm::Fun(params, result) = &ann.what else {
        return false;
    };
    let [class, int] = params.as_slice() else {
        return false;
    };
    let AnnForm::Class(word) = &class.what else {
        return false;
    };
    ann.place == at(14)
        && class.place == at(24)
        && is_word(word, b"P", 24)
        && int.place == at(27)
        && matches!(&int.what, AnnForm::Int)
        && result.get().place == at(33)
        && matches!(&result.get().what, AnnForm::Nil)
}

/// Whether this is `Callable[[], INNER]`.
fn is_type(ann: &Ann) -> bool {
    let AnnForm::Fun(params, result) = &ann.what else {
        return false;
    };
    ann.place == at(1) && params.as_slice().is_empty() && is_inner_type(result.get())
}

fn none() -> Spelled {
    Spelled {
        what: What::Nil,
        place: at(1),
    }
}

/// Whether a token alone is read, each machine by itself.
fn reads_one(alloc: Global) -> Result<bool, AllocError> {
    let held = Held {
        stack: Stack::new(alloc),
        tree: Expr {
            kind: ExprKind::Nil(none().place),
        },
        weight: 1,
    };
    let expr = step(alloc, 1, Mode::Want(Stack::new(alloc)), none())?;
    let ended = finish(alloc, Mode::Have(held))?;
    let TypeNext::Go(mode) = type_step(alloc, 1, TypeMode::Want(Stack::new(alloc)), none())? else {
        return Ok(false);
    };
    Ok(matches!(expr, Next::Go(_)) && ended.is_some() && type_finish(mode).is_some())
}

#[test]
fn whole(rt: HostRuntime) -> Result<(), Fail> {
    let text = "a.b(1 + 2, 'x',) < -cast(Callable[[int], Dyn], join(t)) and not (None or True)\n";
    let (tree, behind) = read_expr(rt.alloc(), text)?;
    assert_eq!(rt; behind, 36);
    assert!(rt; is_whole(&tree));
    Ok(())
}

#[test]
fn chain(rt: HostRuntime) -> Result<(), Fail> {
    let (tree, _) = read_expr(rt.alloc(), "1 - a - b\n")?;
    assert!(rt; is_chain(&tree));
    Ok(())
}

#[test]
fn comparison(rt: HostRuntime) -> Result<(), Fail> {
    let (tree, behind) = read_expr(rt.alloc(), "a < b < c\n")?;
    assert_eq!(rt; behind, 3);
    assert!(rt; is_comparison(&tree));
    Ok(())
}

#[test]
fn machines(rt: HostRuntime) -> Result<(), Fail> {
    assert!(rt; reads_one(rt.alloc())?);
    Ok(())
}

#[test]
fn types(rt: HostRuntime) -> Result<(), Fail> {
    let (ann, behind) = read_type(rt.alloc(), "Callable[[], Callable[[P, int], None]] = x\n")?;
    assert_eq!(rt; behind, 16);
    assert!(rt; is_type(&ann));
    Ok(())
}

/// The place of the refusal of a text's expression.
fn refused_at(alloc: Global, text: &str) -> Result<Option<Refusal>, AllocError>
    requires { length text.now ≤ most_bytes }
{
    match read_expr(alloc, text) {
        Ok(_) => Ok(None),
        Err(LoadFault::Refused(refusal)) => Ok(Some(refusal)),
        Err(LoadFault::Memory) => Err(AllocError),
    }
}

#[test]
fn refusals(rt: HostRuntime) -> Result<(), Fail> {
    let refusal = Refusal {
        place: at(8),
        reason: Reason::Syntax,
    };
    assert_eq!(rt; refused_at(rt.alloc(), "(a < b < c)\n")?, Some(refusal));
    Ok(())
}
