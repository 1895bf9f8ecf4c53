ghost use Rattle.std.specs.Prelude.{◌≡◌, [], ◌∷◌, IfOk, IfErr, Ok, length, map, false};
ghost use Rattle.std.specs.Option.{option_copied};
ghost use Rattle.mono_syntax.specs.declared.refusal.LoadFault.TheVariants.{Refused};
ghost use Rattle.mono_syntax.specs.Ty.{dyn, fun};
ghost use Rattle.mono_syntax.specs.TyView.{ty_of, tys, tys_list};
ghost use Rattle.script_rules.specs.LoadFaults.{IsFault};
ghost use Rattle.static_types.specs.Members.{all_dyn, member_type};
ghost use Rattle.static_types.specs.Operators.{arithmetic, comparison, equality, sort_of, operand_types, operator_type};
ghost use Rattle.static_types.specs.Rules.{takes, at, member_of, CalleeRule, RuleOf, CalleeFault, RuleFault};
ghost use Rattle.known_names.specs.IsKnown.{WhereKnown};
ghost use Rattle.known_names.specs.computed.Gives.{Gives};
ghost use Rattle.rule_choice.specs.CalledClass.{IsClassCalled};
ghost use Rattle.rule_choice.specs.GivenParts.{types_of};
ghost use Rattle.rule_choice.specs.computed.Ruled.{name_rule, join_rule, operator_rule, read_rule, cast_rule, called_class, new_rule, callee_rule, first_rule, call_rule, ruled};

use crate::parts::{Part, are_two_dyn};
use known_names::{Known, KnownClass, Local, field_of, new_type, written};
use mono_list::Shared;
use mono_syntax::{
    Ann, Expr, ExprKind, Field, LoadFault, Name, Op, Place, Reason, Refusal, Ty, TyKind, Word,
};
use sqlite_items::Items;
use static_types::Rule;
use std::alloc::{AllocError, Global};

/// The refusal of this reason.
pub fn refused(place: Place, reason: Reason) -> LoadFault
    ensures { result ≡ Refused (at place reason) }
{
    LoadFault::Refused(Refusal { place, reason })
}

// ---- rules by hand

/// A construct without parts.
fn leaf_rule(alloc: Global, gives: TyKind) -> Result<Rule, AllocError>
    ensures { IfOk result (λ r. r ≡ takes [] (ty_of gives)) }
{
    let gives = new_type(alloc, gives)?;
    let asks = Items::new(alloc);
    Ok(Rule { asks, gives })
}

/// A name of this type.
fn named_rule(alloc: Global, ty: &Shared<Ty>) -> Result<Rule, AllocError>
    ensures { IfOk result (λ r. r ≡ takes [] ty.now) }
{
    let gives = ty.share()?;
    let asks = Items::new(alloc);
    Ok(Rule { asks, gives })
}

/// A construct of one part, which is used at a type.
fn one_rule(alloc: Global, asked: Shared<Ty>, gives: Shared<Ty>) -> Result<Rule, AllocError>
    ensures { IfOk result (λ r. r ≡ takes (asked ∷ []) gives) }
{
    let mut asks = Items::new(alloc);
    asks.push(asked)?;
    Ok(Rule { asks, gives })
}

/// A construct of two parts, which are used at one type.
fn pair_rule(alloc: Global, asked: TyKind, gives: TyKind) -> Result<Rule, AllocError>
    ensures { IfOk result (λ r. r ≡ takes (ty_of asked ∷ ty_of asked ∷ []) (ty_of gives)) }
{
    let asked = new_type(alloc, asked)?;
    let gives = new_type(alloc, gives)?;
    let mut asks = Items::new(alloc);
    asks.push(asked.share()?)?;
    asks.push(asked)?;
    Ok(Rule { asks, gives })
}

// ---- names

fn name_rule(
    alloc: Global,
    value: Option<&Shared<Ty>>,
    function: Option<&Shared<Ty>>,
    word: &Word,
) -> Result<Rule, LoadFault>
    ensures { Gives result (name_rule (option_copied value.entry) (option_copied function.entry) word.now) }
{
    if let Some(ty) = value {
        return Ok(named_rule(alloc, ty)?);
    }
    match function {
        Some(ty) => Ok(named_rule(alloc, ty)?),
        None => Err(refused(word.place, Reason::UnknownName)),
    }
}

fn join_rule(alloc: Global, thread: Option<&Shared<Ty>>, word: &Word) -> Result<Rule, LoadFault>
    ensures { Gives result (join_rule (option_copied thread.entry) word.now) }
{
    match thread {
        Some(ty) => Ok(named_rule(alloc, ty)?),
        None => Err(refused(word.place, Reason::Misused)),
    }
}

// ---- operators

fn arithmetic(alloc: Global, dyn_sum: bool) -> Result<Rule, AllocError>
    ensures { IfOk result (λ r. r ≡ takes (operand_types arithmetic dyn_sum) (operator_type arithmetic dyn_sum)) }
{
    if dyn_sum {
        pair_rule(alloc, TyKind::Dyn, TyKind::Dyn)
    } else {
        pair_rule(alloc, TyKind::Int, TyKind::Int)
    }
}

fn comparison(alloc: Global) -> Result<Rule, AllocError>
    ensures { IfOk result (λ r. r ≡ takes (operand_types comparison false) (operator_type comparison false)) }
{
    pair_rule(alloc, TyKind::Int, TyKind::Bool)
}

fn equality(alloc: Global) -> Result<Rule, AllocError>
    ensures { IfOk result (λ r. r ≡ takes (operand_types equality false) (operator_type equality false)) }
{
    pair_rule(alloc, TyKind::Dyn, TyKind::Bool)
}

fn operator_rule(alloc: Global, op: Op, parts: &[Part]) -> Result<Rule, AllocError>
    ensures { IfOk result (λ r. r ≡ operator_rule op parts.now) }
{
    match op {
        Op::Add => arithmetic(alloc, are_two_dyn(parts)),
        Op::Sub => arithmetic(alloc, false),
        Op::Mul => arithmetic(alloc, false),
        Op::Div => arithmetic(alloc, false),
        Op::Mod => arithmetic(alloc, false),
        Op::Lt => comparison(alloc),
        Op::Le => comparison(alloc),
        Op::Gt => comparison(alloc),
        Op::Ge => comparison(alloc),
        Op::Eq => equality(alloc),
        Op::Ne => equality(alloc),
    }
}

// ---- fields

fn read_rule(alloc: Global, member: Option<Shared<Ty>>, word: &Word) -> Result<Rule, LoadFault>
    ensures { Gives result (read_rule member word.now) }
{
    match member {
        Some(ty) => {
            let dynamic = new_type(alloc, TyKind::Dyn)?;
            Ok(one_rule(alloc, dynamic, ty)?)
        }
        None => Err(refused(word.place, Reason::NoField)),
    }
}

/// What a field of a value of this type has as its type.
fn member_type(alloc: Global, ty: &Ty, name: &Name) -> Result<Option<Shared<Ty>>, AllocError>
    ensures { IfOk result (λ found. found ≡ member_type ty.now name.now) }
{
    match &ty.kind {
        TyKind::Dyn => Ok(Some(new_type(alloc, TyKind::Dyn)?)),
        TyKind::Obj(members) => match field_of(members.as_slice(), name) {
            Some(ty) => Ok(Some(ty.share()?)),
            None => Ok(None),
        },
        _ => Ok(None),
    }
}

/// The type of a field of the first part.
pub fn first_member(
    alloc: Global,
    parts: &[Part],
    name: &Name,
) -> Result<Option<Shared<Ty>>, AllocError>
    ensures { IfOk result (λ found. found ≡ member_of (types_of parts.now) name.now) }
{
    match parts.first() {
        Some(part) => member_type(alloc, part.ty.get(), name),
        None => Ok(None),
    }
}

// ---- casts

fn cast_rule(alloc: Global, target: Option<Shared<Ty>>, ann: &Ann) -> Result<Rule, LoadFault>
    ensures { Gives result (cast_rule target ann.now) }
{
    match target {
        Some(ty) => {
            let asked = ty.share()?;
            Ok(one_rule(alloc, asked, ty)?)
        }
        None => Err(refused(ann.place, Reason::UnknownName)),
    }
}

// ---- calls

fn class_of_callee<'a>(known: &'a Known, callee: &Expr) -> Option<&'a KnownClass>
    ensures { option_copied result ≡ called_class known.now.classes callee.now }
{
    match &callee.kind {
        ExprKind::Local(word) => known.classes.get(&word.text),
        _ => None,
    }
}

/// The class whose name is called.
pub fn called_class<'a>(known: &'a Known, callee: &Expr) -> Option<&'a KnownClass>
    ensures class { IsClassCalled known.now callee.now (option_copied result) }

    // It is the value that the definition of this name computes.
    ensures computed { option_copied result ≡ called_class known.now.classes callee.now }
{
    class_of_callee(known, callee)
}

fn field_types(alloc: Global, fields: &[Field]) -> Result<Items<Shared<Ty>>, AllocError>
    ensures { IfOk result (λ types. types ≡ map (λ f. f.ty) fields.now) }
{
    let mut types = Items::new(alloc);
    for field in fields {
        types.push(field.ty.share()?)?;
    }
    Ok(types)
}

/// An object of a class, from a value for each field.
fn new_rule(
    alloc: Global,
    class: &KnownClass,
    bracket: Place,
    parts: &[Part],
) -> Result<Rule, LoadFault>
    ensures { Gives result (new_rule class.now bracket parts.now) }
{
    if parts.len() != class.fields.len() {
        return Err(refused(bracket, Reason::Arity));
    }
    let asks = field_types(alloc, class.fields.as_slice())?;
    let gives = class.ty.share()?;
    Ok(Rule { asks, gives })
}

/// A callee, and arguments of which any types will do.
fn any_arguments(alloc: Global, parts: &[Part]) -> Result<Items<Shared<Ty>>, AllocError>
    ensures { IfOk result (λ asks. asks ≡ dyn ∷ all_dyn parts.now) }
{
    let dynamic = new_type(alloc, TyKind::Dyn)?;
    let mut asks = Items::new(alloc);
    asks.push(dynamic.share()?)?;
    for _ in parts {
        asks.push(dynamic.share()?)?;
    }
    Ok(asks)
}

/// A callee, and arguments at these parameters.
fn parameters(alloc: Global, params: &[Shared<Ty>]) -> Result<Items<Shared<Ty>>, AllocError>
    ensures { IfOk result (λ asks. asks ≡ dyn ∷ params.now) }
{
    let mut asks = Items::new(alloc);
    asks.push(new_type(alloc, TyKind::Dyn)?)?;
    for param in params {
        asks.push(param.share()?)?;
    }
    Ok(asks)
}

/// A call of a function of these parameters, with arguments.
#[tactic(auto, using(crate::proofs::Params::params))]
fn function_rule(
    alloc: Global,
    params: &[Shared<Ty>],
    out: &Shared<Ty>,
    bracket: Place,
    arguments: &[Part],
) -> Result<Rule, LoadFault>
    ensures { Gives result (callee_rule (fun (tys params.now) out.now) bracket arguments.now) }
{
    if arguments.len() != params.len() {
        return Err(refused(bracket, Reason::Arity));
    }
    let asks = parameters(alloc, params)?;
    let gives = out.share()?;
    Ok(Rule { asks, gives })
}

/// A call of a callee of this type with arguments.
fn callee_rule(
    alloc: Global,
    callee: &Ty,
    bracket: Place,
    arguments: &[Part],
) -> Result<Rule, LoadFault>
    ensures { Gives result (callee_rule callee.now bracket arguments.now) }
{
    match &callee.kind {
        TyKind::Dyn => {
            let asks = any_arguments(alloc, arguments)?;
            let gives = new_type(alloc, TyKind::Dyn)?;
            Ok(Rule { asks, gives })
        }
        TyKind::Fun(params, out) => {
            function_rule(alloc, params.as_slice(), out, bracket, arguments)
        }
        _ => Err(refused(bracket, Reason::NotCallable)),
    }
}

fn rule_of_first(alloc: Global, bracket: Place, parts: &[Part]) -> Result<Rule, LoadFault>
    ensures { Gives result (first_rule bracket parts.now) }
{
    match parts.split_first() {
        Some((callee, arguments)) => callee_rule(alloc, callee.ty.get(), bracket, arguments),
        None => Err(refused(bracket, Reason::NotCallable)),
    }
}

/// A call of the first part with the others.
pub fn first_rule(alloc: Global, bracket: Place, parts: &[Part]) -> Result<Rule, LoadFault>
    ensures rule { IfOk result (CalleeRule (types_of parts.now)) }
    ensures refused { IfErr result (IsFault (CalleeFault bracket (types_of parts.now))) }

    // It is the value that the definition of this name computes.
    ensures computed { Gives result (first_rule bracket parts.now) }
{
    rule_of_first(alloc, bracket, parts)
}

fn call_rule(
    alloc: Global,
    class: Option<&KnownClass>,
    bracket: Place,
    parts: &[Part],
) -> Result<Rule, LoadFault>
    ensures { Gives result (call_rule (option_copied class.entry) bracket parts.now) }
{
    match class {
        Some(class) => new_rule(alloc, class, bracket, parts),
        None => rule_of_first(alloc, bracket, parts),
    }
}

// ---- expressions

fn number_rule(alloc: Global, gives: TyKind) -> Result<Rule, AllocError>
    ensures { IfOk result (λ r. r ≡ takes (ty_of gives ∷ []) (ty_of gives)) }
{
    let gives = new_type(alloc, gives)?;
    let asked = gives.share()?;
    one_rule(alloc, asked, gives)
}

fn rule_for(
    alloc: Global,
    known: &Known,
    local: &Local,
    e: &Expr,
    parts: &[Part],
) -> Result<Rule, LoadFault>
    ensures { Gives result (ruled known.now local.now e.now parts.now) }
{
    match &e.kind {
        ExprKind::Local(word) => {
            let value = local.values.get(&word.text);
            let function = known.functions.get(&word.text);
            name_rule(alloc, value, function, word)
        }
        ExprKind::Int(_, _) => Ok(leaf_rule(alloc, TyKind::Int)?),
        ExprKind::Text(_, _) => Ok(leaf_rule(alloc, TyKind::Str)?),
        ExprKind::Bool(_, _) => Ok(leaf_rule(alloc, TyKind::Bool)?),
        ExprKind::Nil(_) => Ok(leaf_rule(alloc, TyKind::Nil)?),
        ExprKind::Neg(_, _) => Ok(number_rule(alloc, TyKind::Int)?),
        ExprKind::Not(_, _) => Ok(number_rule(alloc, TyKind::Bool)?),
        ExprKind::Binary(op, _, _, _) => Ok(operator_rule(alloc, *op, parts)?),
        ExprKind::And(_, _) => Ok(pair_rule(alloc, TyKind::Bool, TyKind::Bool)?),
        ExprKind::Or(_, _) => Ok(pair_rule(alloc, TyKind::Bool, TyKind::Bool)?),
        ExprKind::Read(_, word) => {
            let member = first_member(alloc, parts, &word.text)?;
            read_rule(alloc, member, word)
        }
        ExprKind::Cast(_, ann, _) => {
            let target = written(alloc, &known.annotations, ann)?;
            cast_rule(alloc, target, ann)
        }
        ExprKind::Call(bracket, callee, _) => {
            let class = class_of_callee(known, callee.get());
            call_rule(alloc, class, *bracket, parts)
        }
        ExprKind::Join(_, word) => {
            let thread = local.threads.get(&word.text);
            join_rule(alloc, thread, word)
        }
    }
}

/// The rule of an expression whose parts have their types.
pub fn rule_of(
    alloc: Global,
    known: &Known,
    local: &Local,
    e: &Expr,
    parts: &[Part],
) -> Result<Rule, LoadFault>
    ensures rule { WhereKnown known.now local.now (λ ns. IfOk result (RuleOf ns e.now (types_of parts.now))) }
    ensures refused { WhereKnown known.now local.now (λ ns. IfErr result (IsFault (RuleFault ns e.now (types_of parts.now)))) }

    // It is the value that the definition of this name computes.
    ensures computed { Gives result (ruled known.now local.now e.now parts.now) }
{
    rule_for(alloc, known, local, e, parts)
}
