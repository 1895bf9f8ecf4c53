ghost use Rattle.std.specs.Prelude.{◌≡◌, IfOk};
ghost use Rattle.parse_expr.specs.computed.TypeReading.{IsLightType};
ghost use Rattle.parse_script.specs.computed.ClassReading.{class_word, class_name, class_colon, class_line, class_body, class_pass, class_pass_line, class_field, field_end, class_fields, class_step, class_turn, IsLightClass};

use crate::ending::ending_of;
use crate::stage::{ClassStage, ClassTurn, Ending};
use mono_list::Stack;
use mono_syntax::{ClassDef, FieldDef, GREATEST_WEIGHT, Place, Word};
use parse_expr::machine::{TypeMode, TypeNext, Weighed, type_step};
use spelled_tokens::{Mark, Spelled, What};
use sqlite_items::Items;
use std::alloc::{AllocError, Global};

/// Behind `class`.
fn class_word(place: Place, what: What) -> ClassTurn
    ensures { result ≡ class_turn (class_word place what) }
{
    match what {
        What::Name(text) => ClassTurn::Go(ClassStage::Name(Word { text, place })),
        _ => ClassTurn::Stop,
    }
}

fn class_name(name: Word, what: What) -> ClassTurn
    ensures { result ≡ class_turn (class_name name what) }
{
    match what {
        What::Mark(Mark::Colon) => ClassTurn::Go(ClassStage::Colon(name)),
        _ => ClassTurn::Stop,
    }
}

fn class_colon(name: Word, what: What) -> ClassTurn
    ensures { result ≡ class_turn (class_colon name what) }
{
    match what {
        What::Mark(Mark::Newline) => ClassTurn::Go(ClassStage::Line(name)),
        _ => ClassTurn::Stop,
    }
}

fn class_line(name: Word, what: What) -> ClassTurn
    ensures { result ≡ class_turn (class_line name what) }
{
    match what {
        What::Mark(Mark::Indent) => ClassTurn::Go(ClassStage::Body(name)),
        _ => ClassTurn::Stop,
    }
}

/// The first line of the block.
fn class_body(alloc: Global, name: Word, place: Place, what: What) -> ClassTurn
    ensures { result ≡ class_turn (class_body name place what) }
{
    match what {
        What::Name(text) => {
            let field = Word { text, place };
            ClassTurn::Go(ClassStage::Field(name, Items::new(alloc), field))
        }
        What::Mark(Mark::Pass) => ClassTurn::Go(ClassStage::Pass(name)),
        _ => ClassTurn::Stop,
    }
}

fn class_pass(name: Word, what: What) -> ClassTurn
    ensures { result ≡ class_turn (class_pass name what) }
{
    match what {
        What::Mark(Mark::Newline) => ClassTurn::Go(ClassStage::PassLine(name)),
        _ => ClassTurn::Stop,
    }
}

fn class_pass_line(alloc: Global, name: Word, what: What) -> ClassTurn
    ensures { result ≡ class_turn (class_pass_line name what) }
{
    match what {
        What::Mark(Mark::Dedent) => ClassTurn::Go(ClassStage::Done(ClassDef {
            name,
            fields: Items::new(alloc),
        })),
        _ => ClassTurn::Stop,
    }
}

/// Behind the name of a field.
fn class_field(
    alloc: Global,
    name: Word,
    fields: Items<FieldDef>,
    field: Word,
    what: What,
) -> ClassTurn
    ensures { result ≡ class_turn (class_field name fields field what) }
{
    match what {
        What::Mark(Mark::Colon) => {
            let mode = TypeMode::Want(Stack::new(alloc));
            ClassTurn::Go(ClassStage::Type(name, fields, field, mode))
        }
        _ => ClassTurn::Stop,
    }
}

fn field_end(
    name: Word,
    fields: Items<FieldDef>,
    field: Word,
    found: Option<Weighed>,
    ending: Ending,
) -> Result<ClassTurn, AllocError>
    ensures { IfOk result (λ n. n ≡ class_turn (field_end name fields field found ending)) }
{
    let Some(Weighed { ann, .. }) = found else {
        return Ok(ClassTurn::Stop);
    };
    match ending {
        Ending::Newline => {
            let mut fields = fields;
            fields.push(FieldDef { name: field, ann })?;
            Ok(ClassTurn::Go(ClassStage::Fields(name, fields)))
        }
        _ => Ok(ClassTurn::Stop),
    }
}

/// In the type of a field: it goes on, or ends.
fn class_type(
    alloc: Global,
    name: Word,
    fields: Items<FieldDef>,
    field: Word,
    mode: TypeMode,
    token: Spelled,
) -> Result<ClassTurn, AllocError>
    requires { IsLightType mode }
    ensures { IfOk result (λ n. n ≡ class_turn (class_step (ClassStage.Type name fields field mode) token)) }
{
    let ending = ending_of(&token.what);
    match type_step(alloc, GREATEST_WEIGHT as usize, mode, token)? {
        TypeNext::Go(mode) => Ok(ClassTurn::Go(ClassStage::Type(name, fields, field, mode))),
        TypeNext::Stop(found) => field_end(name, fields, field, found, ending),
    }
}

/// Behind a field: the next one, or the end.
fn class_fields(name: Word, fields: Items<FieldDef>, place: Place, what: What) -> ClassTurn
    ensures { result ≡ class_turn (class_fields name fields place what) }
{
    match what {
        What::Name(text) => ClassTurn::Go(ClassStage::Field(name, fields, Word { text, place })),
        What::Mark(Mark::Dedent) => ClassTurn::Go(ClassStage::Done(ClassDef { name, fields })),
        _ => ClassTurn::Stop,
    }
}

/// One more token of a class.
pub fn class_step(alloc: Global, stage: ClassStage, token: Spelled) -> Result<ClassTurn, AllocError>
    requires { IsLightClass stage }
    ensures { IfOk result (λ n. n ≡ class_turn (class_step stage token)) }
{
    match stage {
        ClassStage::Word => Ok(class_word(token.place, token.what)),
        ClassStage::Name(name) => Ok(class_name(name, token.what)),
        ClassStage::Colon(name) => Ok(class_colon(name, token.what)),
        ClassStage::Line(name) => Ok(class_line(name, token.what)),
        ClassStage::Body(name) => Ok(class_body(alloc, name, token.place, token.what)),
        ClassStage::Pass(name) => Ok(class_pass(name, token.what)),
        ClassStage::PassLine(name) => Ok(class_pass_line(alloc, name, token.what)),
        ClassStage::Field(name, fields, field) => {
            Ok(class_field(alloc, name, fields, field, token.what))
        }
        ClassStage::Type(name, fields, field, mode) => {
            class_type(alloc, name, fields, field, mode, token)
        }
        ClassStage::Fields(name, fields) => {
            Ok(class_fields(name, fields, token.place, token.what))
        }
        ClassStage::Done(_) => Ok(ClassTurn::Stop),
    }
}
