ghost use Rattle.std.specs.Prelude.{◌≡◌, [], ◌∷◌, ◌++◌, Some, None, IfOk};
ghost use Rattle.parse_expr.specs.computed.TypeReading.{IsLightType};
ghost use Rattle.parse_script.specs.computed.DefReading.{def_word, def_name, def_params, behind_param, def_param, param_end, def_closed, result_end, def_colon, def_line, def_step, def_turn, IsLightDef};

use crate::ending::ending_of;
use crate::stage::{DefHead, DefStage, DefTurn, Ending};
use mono_list::Stack;
use mono_syntax::{Ann, GREATEST_WEIGHT, Param, Place, Word};
use parse_expr::machine::{TypeMode, TypeNext, Weighed, type_step};
use spelled_tokens::{Mark, Spelled, What};
use sqlite_items::Items;
use std::alloc::{AllocError, Global};

/// Behind `def`.
fn def_word(place: Place, what: What) -> DefTurn
    ensures { result ≡ def_turn (def_word place what) }
{
    match what {
        What::Name(text) => DefTurn::Go(DefStage::Name(Word { text, place })),
        _ => DefTurn::Stop,
    }
}

fn def_name(alloc: Global, name: Word, what: What) -> DefTurn
    ensures { result ≡ def_turn (def_name name what) }
{
    match what {
        What::Open => DefTurn::Go(DefStage::Params(name, Items::new(alloc))),
        _ => DefTurn::Stop,
    }
}

/// Where a parameter may begin.
fn def_params(name: Word, params: Items<Param>, place: Place, what: What) -> DefTurn
    ensures { result ≡ def_turn (def_params name params place what) }
{
    match what {
        What::Name(text) => DefTurn::Go(DefStage::Param(name, params, Word { text, place })),
        What::Close => DefTurn::Go(DefStage::Closed(name, params)),
        _ => DefTurn::Stop,
    }
}

/// Behind a parameter.
fn behind_param(name: Word, params: Items<Param>, ending: Ending) -> DefTurn
    ensures { result ≡ def_turn (behind_param name params ending) }
{
    match ending {
        Ending::Comma => DefTurn::Go(DefStage::Params(name, params)),
        Ending::Close => DefTurn::Go(DefStage::Closed(name, params)),
        _ => DefTurn::Stop,
    }
}

fn with_param(
    name: Word,
    params: Items<Param>,
    param: Word,
    ann: Option<Ann>,
    ending: Ending,
) -> Result<DefTurn, AllocError>
    ensures { IfOk result (λ n. n ≡ def_turn (behind_param name (params ++ record { name = param; ann = ann } ∷ []) ending)) }
{
    let mut params = params;
    params.push(Param { name: param, ann })?;
    Ok(behind_param(name, params, ending))
}

/// Behind the name of a parameter.
fn def_param(
    alloc: Global,
    name: Word,
    params: Items<Param>,
    param: Word,
    ending: Ending,
) -> Result<DefTurn, AllocError>
    ensures { IfOk result (λ n. n ≡ def_turn (def_param name params param ending)) }
{
    match ending {
        Ending::Colon => {
            let mode = TypeMode::Want(Stack::new(alloc));
            Ok(DefTurn::Go(DefStage::Type(name, params, param, mode)))
        }
        _ => with_param(name, params, param, None, ending),
    }
}

fn param_end(
    name: Word,
    params: Items<Param>,
    param: Word,
    found: Option<Weighed>,
    ending: Ending,
) -> Result<DefTurn, AllocError>
    ensures { IfOk result (λ n. n ≡ def_turn (param_end name params param found ending)) }
{
    let Some(Weighed { ann, .. }) = found else {
        return Ok(DefTurn::Stop);
    };
    with_param(name, params, param, Some(ann), ending)
}

/// In the type of a parameter: it goes on, or ends.
fn def_type(
    alloc: Global,
    name: Word,
    params: Items<Param>,
    param: Word,
    mode: TypeMode,
    token: Spelled,
) -> Result<DefTurn, AllocError>
    requires { IsLightType mode }
    ensures { IfOk result (λ n. n ≡ def_turn (def_step (DefStage.Type name params param mode) token)) }
{
    let ending = ending_of(&token.what);
    match type_step(alloc, GREATEST_WEIGHT as usize, mode, token)? {
        TypeNext::Go(mode) => Ok(DefTurn::Go(DefStage::Type(name, params, param, mode))),
        TypeNext::Stop(found) => param_end(name, params, param, found, ending),
    }
}

/// Behind the `)` of the parameters.
fn def_closed(alloc: Global, name: Word, params: Items<Param>, what: What) -> DefTurn
    ensures { result ≡ def_turn (def_closed name params what) }
{
    match what {
        What::Mark(Mark::Arrow) => {
            let mode = TypeMode::Want(Stack::new(alloc));
            DefTurn::Go(DefStage::Result(name, params, mode))
        }
        What::Mark(Mark::Colon) => DefTurn::Go(DefStage::Colon(DefHead {
            name,
            params,
            result: None,
        })),
        _ => DefTurn::Stop,
    }
}

fn result_end(name: Word, params: Items<Param>, found: Option<Weighed>, ending: Ending) -> DefTurn
    ensures { result ≡ def_turn (result_end name params found ending) }
{
    let Some(Weighed { ann, .. }) = found else {
        return DefTurn::Stop;
    };
    match ending {
        Ending::Colon => DefTurn::Go(DefStage::Colon(DefHead {
            name,
            params,
            result: Some(ann),
        })),
        _ => DefTurn::Stop,
    }
}

/// In the type of the result: it goes on, or ends.
fn def_result(
    alloc: Global,
    name: Word,
    params: Items<Param>,
    mode: TypeMode,
    token: Spelled,
) -> Result<DefTurn, AllocError>
    requires { IsLightType mode }
    ensures { IfOk result (λ n. n ≡ def_turn (def_step (DefStage.Result name params mode) token)) }
{
    let ending = ending_of(&token.what);
    match type_step(alloc, GREATEST_WEIGHT as usize, mode, token)? {
        TypeNext::Go(mode) => Ok(DefTurn::Go(DefStage::Result(name, params, mode))),
        TypeNext::Stop(found) => Ok(result_end(name, params, found, ending)),
    }
}

fn def_colon(head: DefHead, what: What) -> DefTurn
    ensures { result ≡ def_turn (def_colon head what) }
{
    match what {
        What::Mark(Mark::Newline) => DefTurn::Go(DefStage::Line(head)),
        _ => DefTurn::Stop,
    }
}

fn def_line(head: DefHead, what: What) -> DefTurn
    ensures { result ≡ def_turn (def_line head what) }
{
    match what {
        What::Mark(Mark::Indent) => DefTurn::Go(DefStage::Done(head)),
        _ => DefTurn::Stop,
    }
}

/// One more token of a function's head.
pub fn def_step(alloc: Global, stage: DefStage, token: Spelled) -> Result<DefTurn, AllocError>
    requires { IsLightDef stage }
    ensures { IfOk result (λ n. n ≡ def_turn (def_step stage token)) }
{
    match stage {
        DefStage::Word => Ok(def_word(token.place, token.what)),
        DefStage::Name(name) => Ok(def_name(alloc, name, token.what)),
        DefStage::Params(name, params) => Ok(def_params(name, params, token.place, token.what)),
        DefStage::Param(name, params, param) => {
            def_param(alloc, name, params, param, ending_of(&token.what))
        }
        DefStage::Type(name, params, param, mode) => {
            def_type(alloc, name, params, param, mode, token)
        }
        DefStage::Closed(name, params) => Ok(def_closed(alloc, name, params, token.what)),
        DefStage::Result(name, params, mode) => def_result(alloc, name, params, mode, token),
        DefStage::Colon(head) => Ok(def_colon(head, token.what)),
        DefStage::Line(head) => Ok(def_line(head, token.what)),
        DefStage::Done(_) => Ok(DefTurn::Stop),
    }
}
