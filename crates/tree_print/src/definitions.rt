ghost use Rattle.std.specs.Prelude.{◌≡◌, ◌∷◌, ◌++◌, [], OnOk};
ghost use Rattle.mono_syntax.specs.declared.tree.ClassDef.{ClassDef};
ghost use Rattle.spelled_tokens.specs.declared.token.Mark.TheVariants as mark;
ghost use Rattle.token_lines.specs.Lines.{line, line_text, lines_text};
ghost use Rattle.token_lines.specs.Sheets.{written};
ghost use Rattle.tree_print.specs.Brackets.{sign, name, ann_tokens};
ghost use Rattle.tree_print.specs.ScriptLines.{field_line, fields_lines, body_lines, class_tokens, class_lines, param_tokens, params_tokens, more_params_tokens, result_tokens, def_tokens, def_lines};

use crate::simple::put_type;
use crate::statements::put_inner;
use crate::tokens::{put_name, put_sign, put_what};
use crate::types::put_ann;
use mono_syntax::{Ann, ClassDef, FieldDef, FuncDef, Param, Word};
use spelled_tokens::{Mark, What};
use std::alloc::{AllocError, Global};
use token_lines::{Indent, Page};

fn put_field(alloc: Global, page: &mut Page, field: &FieldDef) -> Result<(), AllocError>
    ensures { OnOk result (page.new ≡ written page.old (name field.now.name ∷ sign mark.Colon ∷ ann_tokens field.now.ann)) }
{
    put_name(alloc, page, &field.name)?;
    put_sign(alloc, page, Mark::Colon)?;
    put_ann(alloc, page, &field.ann)
}

#[tactic(auto, using(token_lines::proofs::Sheets::line_put))]
fn put_field_line(
    alloc: Global,
    page: &mut Page,
    indent: &Indent,
    field: &FieldDef,
) -> Result<(), AllocError>
    requires { indent.now ≡ 1 }
    ensures { OnOk result (page.new.text ≡ page.old.text ++ line_text (field_line field.now)) }
{
    page.begin(indent)?;
    put_field(alloc, page, field)?;
    page.end()?;
    Ok(())
}

#[tactic(auto, using(token_lines::proofs::Sheets::line_put))]
fn put_pass_line(alloc: Global, page: &mut Page, indent: &Indent) -> Result<(), AllocError>
    requires { indent.now ≡ 1 }
    ensures { OnOk result (page.new.text ≡ page.old.text ++ line_text (line 1 (sign mark.Pass ∷ []))) }
{
    page.begin(indent)?;
    put_sign(alloc, page, Mark::Pass)?;
    page.end()?;
    Ok(())
}

/// Adds the lines of a class's fields.
#[tactic(auto, using(crate::proofs::Lines::lines))]
fn put_fields(
    alloc: Global,
    page: &mut Page,
    indent: &Indent,
    list: &[FieldDef],
) -> Result<(), AllocError>
    requires { indent.now ≡ 1 }
    ensures { OnOk result (page.new.text ≡ page.old.text ++ lines_text (fields_lines list.now)) }
{
    for field in list {
        put_field_line(alloc, page, indent, field)?;
    }
    Ok(())
}

/// Adds the block of a class: its fields, or `pass` where it has none.
fn put_body(
    alloc: Global,
    page: &mut Page,
    indent: &Indent,
    list: &[FieldDef],
) -> Result<(), AllocError>
    requires { indent.now ≡ 1 }
    ensures { OnOk result (page.new.text ≡ page.old.text ++ lines_text (body_lines list.now)) }
{
    match list {
        [] => put_pass_line(alloc, page, indent),
        [_, ..] => put_fields(alloc, page, indent, list),
    }
}

fn put_class_tokens(alloc: Global, page: &mut Page, word: &Word) -> Result<(), AllocError>
    ensures { OnOk result (page.new ≡ written page.old (class_tokens word.now)) }
{
    put_sign(alloc, page, Mark::Class)?;
    put_name(alloc, page, word)?;
    put_sign(alloc, page, Mark::Colon)
}

#[tactic(auto, using(token_lines::proofs::Sheets::line_put))]
fn put_class_line(
    alloc: Global,
    page: &mut Page,
    indent: &Indent,
    word: &Word,
) -> Result<(), AllocError>
    requires { indent.now ≡ 0 }
    ensures { OnOk result (page.new.text ≡ page.old.text ++ line_text (line 0 (class_tokens word.now))) }
{
    page.begin(indent)?;
    put_class_tokens(alloc, page, word)?;
    page.end()?;
    Ok(())
}

/// Adds the lines of a class, which stands outside all blocks.
#[tactic(auto, using(crate::proofs::Lines::lines))]
pub fn put_class(
    alloc: Global,
    page: &mut Page,
    indent: &Indent,
    class: &ClassDef,
) -> Result<(), AllocError>
    requires { indent.now ≡ 0 }
    ensures { OnOk result (page.new.text ≡ page.old.text ++ lines_text (class_lines class.now)) }
{
    put_class_line(alloc, page, indent, &class.name)?;
    let deeper = indent.deeper(alloc)?;
    put_body(alloc, page, &deeper, class.fields.as_slice())
}

fn put_param(alloc: Global, page: &mut Page, param: &Param) -> Result<(), AllocError>
    ensures { OnOk result (page.new ≡ written page.old (param_tokens param.now)) }
{
    put_name(alloc, page, &param.name)?;
    put_type(alloc, page, &param.ann)
}

#[tactic(auto, using(token_lines::proofs::Sheets::writing))]
fn put_params(alloc: Global, page: &mut Page, list: &[Param]) -> Result<(), AllocError>
    ensures { OnOk result (page.new ≡ written page.old (params_tokens list.now)) }
{
    let Some((first, rest)) = list.split_first() else {
        return Ok(());
    };
    put_param(alloc, page, first)?;
    put_more_params(alloc, page, rest)
}

/// Adds parameters, each behind a comma.
fn put_more_params(alloc: Global, page: &mut Page, list: &[Param]) -> Result<(), AllocError>
    ensures { OnOk result (page.new ≡ written page.old (more_params_tokens list.now)) }
{
    for param in list {
        put_what(alloc, page, What::Comma)?;
        put_param(alloc, page, param)?;
    }
    Ok(())
}

fn put_result(alloc: Global, page: &mut Page, ann: &Option<Ann>) -> Result<(), AllocError>
    ensures { OnOk result (page.new ≡ written page.old (result_tokens ann.now)) }
{
    let Some(ann) = ann else {
        return Ok(());
    };
    put_sign(alloc, page, Mark::Arrow)?;
    put_ann(alloc, page, ann)
}

/// Adds the head of a function.
#[tactic(auto, using(token_lines::proofs::Sheets::writing))]
fn put_def_tokens(alloc: Global, page: &mut Page, def: &FuncDef) -> Result<(), AllocError>
    ensures { OnOk result (page.new ≡ written page.old (def_tokens def.now)) }
{
    put_sign(alloc, page, Mark::Def)?;
    put_name(alloc, page, &def.name)?;
    put_what(alloc, page, What::Open)?;
    put_params(alloc, page, def.params.as_slice())?;
    put_what(alloc, page, What::Close)?;
    put_result(alloc, page, &def.result)?;
    put_sign(alloc, page, Mark::Colon)
}

#[tactic(auto, using(token_lines::proofs::Sheets::line_put))]
fn put_def_line(
    alloc: Global,
    page: &mut Page,
    indent: &Indent,
    def: &FuncDef,
) -> Result<(), AllocError>
    requires { indent.now ≡ 0 }
    ensures { OnOk result (page.new.text ≡ page.old.text ++ line_text (line 0 (def_tokens def.now))) }
{
    page.begin(indent)?;
    put_def_tokens(alloc, page, def)?;
    page.end()?;
    Ok(())
}

/// Adds the lines of a function, which stands outside all blocks.
#[tactic(auto, using(crate::proofs::Lines::lines))]
pub fn put_def(
    alloc: Global,
    page: &mut Page,
    indent: &Indent,
    def: &FuncDef,
) -> Result<(), AllocError>
    requires { indent.now ≡ 0 }
    ensures { OnOk result (page.new.text ≡ page.old.text ++ lines_text (def_lines def.now)) }
{
    put_def_line(alloc, page, indent, def)?;
    put_inner(alloc, page, indent, def.body.as_slice())
}
