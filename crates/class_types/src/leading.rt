ghost use Rattle.std.specs.Prelude.{◌≡◌, ◌≤◌, ◌↔◌, IsTrue, length, map, replicate, slice_get, false, Some, None, IfOk};
ghost use Rattle.mono_syntax.specs.AnnView.{anns};
ghost use Rattle.class_types.specs.computed.FoundFaults.{first_from, found};
ghost use Rattle.class_types.specs.computed.Leading.{is_marked, word_fault, leads_now, mark, mark_round, visit_mark, visit_marks, unmarked, AreLeading};
ghost use Rattle.class_types.specs.computed.Made.{names_of_classes};
ghost use Rattle.name_places.specs.Places.{place_in};
ghost use Rattle.script_rules.specs.Recursion.{names_in, names_in_all, field_names};

use crate::first::sooner;
use mono_syntax::{Ann, AnnForm, ClassDef, FieldDef, Name, Reason, Refusal, Word};
use name_places::NamePlaces;
use std::alloc::{AllocError, Global};

/// Whether a class is the first of its name.
pub fn is_first(names: &NamePlaces, name: &Name, at: usize) -> bool
    ensures { IsTrue result ↔ (place_in names.now name.now ≡ Some at) }
{
    match names.place(name) {
        Some(place) => place == at,
        None => false,
    }
}

/// Whether the class of this name is marked.
fn is_marked(names: &NamePlaces, marks: &[bool], name: &Name) -> bool
    ensures { result ≡ is_marked names.now marks.now name.now }
{
    match names.place(name) {
        Some(at) => match marks.get(at) {
            Some(mark) => *mark,
            None => false,
        },
        None => false,
    }
}

/// The name of a marked class.
fn word_fault(
    names: &NamePlaces,
    marks: &[bool],
    so_far: Option<Refusal>,
    word: &Word,
) -> Option<Refusal>
    ensures { result ≡ first_from so_far (word_fault names.now marks.now word.now) }
{
    if is_marked(names, marks, &word.text) {
        let (place, reason) = (word.place, Reason::RecursiveClass);
        sooner(so_far, Refusal { place, reason })
    } else {
        so_far
    }
}

/// The names of marked classes in an annotation.
#[cycle(named)]
#[tactic(auto, using(crate::proofs::FoundLaws::found_steps))]
fn named(names: &NamePlaces, marks: &[bool], so_far: Option<Refusal>, ann: &Ann) -> Option<Refusal>
    ensures { result ≡ found (word_fault names.now marks.now) so_far (names_in ann.now) }
{
    match &ann.what {
        AnnForm::Class(word) => word_fault(names, marks, so_far, word),
        AnnForm::Fun(params, out) => {
            let so_far = named_all(names, marks, so_far, params.as_slice());
            named(names, marks, so_far, out.get())
        }
        _ => so_far,
    }
}

#[cycle(named)]
#[tactic(auto, using(mono_syntax::proofs::Parts::parts))]
fn named_all(
    names: &NamePlaces,
    marks: &[bool],
    so_far: Option<Refusal>,
    list: &[Ann],
) -> Option<Refusal>
    ensures { result ≡ found (word_fault names.now marks.now) so_far (names_in_all (anns list.now)) }
{
    let mut so_far = so_far;
    for ann in list {
        so_far = named(names, marks, so_far, ann);
    }
    so_far
}

/// The names of marked classes in the annotations of fields.
pub fn named_in_fields(
    names: &NamePlaces,
    marks: &[bool],
    so_far: Option<Refusal>,
    list: &[FieldDef],
) -> Option<Refusal>
    ensures { result ≡ found (word_fault names.now marks.now) so_far (field_names list.now) }
{
    let mut so_far = so_far;
    for field in list {
        so_far = named(names, marks, so_far, &field.ann);
    }
    so_far
}

/// Whether a class has this name, or a field that names a marked class.
fn leads_now(names: &NamePlaces, marks: &[bool], target: &Name, class: &ClassDef) -> bool
    ensures { result ≡ leads_now names.now marks.now target.now class.now }
{
    class.name.text.as_slice() == target.as_slice()
        || named_in_fields(names, marks, None, class.fields.as_slice()).is_some()
}

/// The marks so far with that of a class, where it leads to the target.
fn mark(
    names: &NamePlaces,
    target: &Name,
    class: &ClassDef,
    mut marks: Vec<bool>,
    at: usize,
) -> Vec<bool>
    ensures { result.items ≡ mark names.now target.now class.now marks.items at }
{
    match marks.get(at) {
        Some(false) => {}
        _ => return marks,
    }
    if leads_now(names, marks.as_slice(), target, class) {
        marks[at] = true;
    }
    marks
}

/// One round: each class that isn't marked yet is marked where it leads to the target.
fn mark_round(
    names: &NamePlaces,
    target: &Name,
    classes: &[&ClassDef],
    marks: Vec<bool>,
) -> Vec<bool>
    ensures { result.items ≡ mark_round names.now target.now (map (λ d. d.now) classes.now) marks.items 0 }
{
    let mut marks = marks;
    for (at, class) in classes.iter().enumerate() {
        marks = mark(names, target, class, marks, at);
    }
    marks
}

/// The class at a place, where one stands there.
fn visit(
    names: &NamePlaces,
    target: &Name,
    classes: &[&ClassDef],
    marks: Vec<bool>,
    at: usize,
) -> Vec<bool>
    ensures { result.items ≡ visit_mark names.now target.now (slice_get (map (λ d. d.now) classes.now) at) marks.items at }
{
    match classes.get(at) {
        Some(class) => mark(names, target, class, marks, at),
        None => marks,
    }
}

/// The classes at these places, one after the other.
fn visited(
    names: &NamePlaces,
    target: &Name,
    classes: &[&ClassDef],
    order: &[usize],
    marks: Vec<bool>,
) -> Vec<bool>
    ensures { result.items ≡ visit_marks names.now target.now (map (λ d. d.now) classes.now) order.now marks.items }
{
    let mut marks = marks;
    for at in order {
        marks = visit(names, target, classes, marks, *at);
    }
    marks
}

fn unmarked(marks: &[bool]) -> usize
    ensures count { result ≡ unmarked marks.now }
    ensures within { result ≤ length marks.now }
{
    let mut count = 0;
    for mark in marks {
        if !*mark {
            count += 1;
        }
    }
    count
}

fn no_marks(alloc: Global, count: usize) -> Result<Vec<bool>, AllocError>
    ensures { IfOk result (λ r. r.items ≡ replicate count false) }
{
    let mut marks = Vec::new(alloc);
    while marks.len() < count {
        marks.push(false)?;
    }
    Ok(marks)
}

/// Marks on the classes that lead to the class of this name. The order of the first visits decides how many rounds there
/// are: one, where each class that leads there comes after one that it names.
pub fn leading(
    alloc: Global,
    names: &NamePlaces,
    classes: &[&ClassDef],
    target: &Name,
    order: &[usize],
) -> Result<Vec<bool>, AllocError>
    requires { names.now ≡ names_of_classes (map (λ d. d.now) classes.now) }
    ensures { IfOk result (λ r. AreLeading (map (λ d. d.now) classes.now) target.now r.items) }
{
    let none = no_marks(alloc, classes.len())?;
    let mut marks = visited(names, target, classes, order, none);
    let mut left = classes.len();
    loop {
        marks = mark_round(names, target, classes, marks);
        let now = unmarked(marks.as_slice());
        if now == left {
            return Ok(marks);
        }
        left = now;
    }
}
