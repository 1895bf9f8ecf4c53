ghost use Rattle.std.specs.Prelude.{◌≡◌, ◌++◌, map, IfOk};
ghost use Rattle.mono_syntax.specs.AnnView.{anns};
ghost use Rattle.script_rules.specs.Recursion.{names_in, names_in_all, field_names};

use mono_syntax::{Ann, AnnForm, ClassDef, FieldDef, Word};
use name_places::NamePlaces;
use std::alloc::{AllocError, Global};

/// The words so far, and the names in an annotation.
#[cycle(named)]
#[tactic(auto, using(crate::proofs::GraphLaws::named_steps))]
fn named<'a>(mut words: Vec<&'a Word>, ann: &'a Ann) -> Result<Vec<&'a Word>, AllocError>
    ensures { IfOk result (λ r. map (λ w. w.now) r.items ≡ map (λ w. w.now) words.entry.items ++ names_in ann.now) }
{
    match &ann.what {
        AnnForm::Class(word) => {
            words.push(word)?;
            Ok(words)
        }
        AnnForm::Fun(params, out) => {
            let words = named_all(words, params.as_slice())?;
            named(words, out.get())
        }
        _ => Ok(words),
    }
}

#[cycle(named)]
#[tactic(auto, using(mono_syntax::proofs::Parts::parts))]
fn named_all<'a>(words: Vec<&'a Word>, list: &'a [Ann]) -> Result<Vec<&'a Word>, AllocError>
    ensures { IfOk result (λ r. map (λ w. w.now) r.items ≡ map (λ w. w.now) words.entry.items ++ names_in_all (anns list.now)) }
{
    let mut words = words;
    for ann in list {
        words = named(words, ann)?;
    }
    Ok(words)
}

/// The names in the annotations of fields.
pub fn words_of(alloc: Global, list: &[FieldDef]) -> Result<Vec<&Word>, AllocError>
    ensures { IfOk result (λ r. map (λ w. w.now) r.items ≡ field_names list.now) }
{
    let mut words = Vec::new(alloc);
    for field in list {
        words = named(words, &field.ann)?;
    }
    Ok(words)
}

/// Classes by number, with the classes that the fields of each name. How long a search takes rests on this graph, and
/// nothing else does, so no clause says anything of it.
#[derive(Drop)]
pub struct Graph {
    /// For each class those that its fields name.
    named: Vec<Vec<usize>>,
    /// For each class those whose fields name it.
    naming: Vec<Vec<usize>>,
    /// The classes twice and the names: the steps of a search of all of it.
    steps: usize,
}

fn no_rows(alloc: Global, count: usize) -> Result<Vec<Vec<usize>>, AllocError> {
    let mut rows = Vec::new(alloc);
    for _ in 0..count {
        rows.push(Vec::new(alloc))?;
    }
    Ok(rows)
}

fn put(rows: &mut Vec<Vec<usize>>, at: usize, number: usize) -> Result<(), AllocError> {
    if let Some(row) = rows.get_mut(at) {
        row.push(number)?;
    }
    Ok(())
}

impl Graph {
    /// The graph of these classes. Of several classes of one name only the first names others.
    pub fn new(
        alloc: Global,
        names: &NamePlaces,
        classes: &[&ClassDef],
    ) -> Result<Graph, AllocError> {
        let mut graph = Graph {
            named: no_rows(alloc, classes.len())?,
            naming: no_rows(alloc, classes.len())?,
            steps: 0,
        };
        for (at, class) in classes.iter().enumerate() {
            graph.steps = graph.steps.saturating_add(2);
            if names.place(&class.name.text) == Some(at) {
                graph.join(alloc, names, at, class)?;
            }
        }
        Ok(graph)
    }

    /// Joins a class to those that its fields name.
    fn join(
        &mut self,
        alloc: Global,
        names: &NamePlaces,
        at: usize,
        class: &ClassDef,
    ) -> Result<(), AllocError> {
        for word in words_of(alloc, class.fields.as_slice())?.as_slice() {
            if let Some(other) = names.place(&word.text) {
                put(&mut self.named, at, other)?;
                put(&mut self.naming, other, at)?;
                self.steps = self.steps.saturating_add(1);
            }
        }
        Ok(())
    }

    /// The classes in the order in which a depth-first search leaves them: each after those that it leads to, where none
    /// of them leads back.
    pub fn leaving(&self, alloc: Global) -> Result<Vec<usize>, AllocError> {
        let count = self.named.len();
        let mut seen = numbers(alloc, count)?;
        let mut left = Vec::new(alloc);
        for at in (0..count).rev() {
            left.push(Visit::Enter(at))?;
        }
        let mut order = Vec::new(alloc);
        for _ in 0..self.steps {
            match left.pop() {
                Some(Visit::Enter(at)) => {
                    if is_new(&mut seen, at, 1) {
                        left.push(Visit::Leave(at))?;
                        left = enter_all(left, row(self.named.as_slice(), at))?;
                    }
                }
                Some(Visit::Leave(at)) => order.push(at)?,
                None => break,
            }
        }
        Ok(order)
    }

    /// A rank for each class: classes that lead to one another have the same, and any other a higher one than those that
    /// it leads to.
    pub fn ranks(&self, alloc: Global) -> Result<Vec<usize>, AllocError> {
        let mut rank = self.named.len();
        let mut ranks = numbers(alloc, rank)?;
        let order = self.leaving(alloc)?;
        for at in order.iter().rev() {
            if is_new(&mut ranks, *at, rank) {
                let _ = self.search(alloc, &mut ranks, *at, rank)?;
                rank = rank.saturating_sub(1);
            }
        }
        Ok(ranks)
    }

    /// The classes that lead to this one, each after one that it names.
    pub fn leading(&self, alloc: Global, at: usize) -> Result<Vec<usize>, AllocError> {
        let mut seen = numbers(alloc, self.named.len())?;
        let _ = is_new(&mut seen, at, 1);
        self.search(alloc, &mut seen, at, 1)
    }

    /// The class at this number and the new ones that lead to it. Each gets the mark.
    fn search(
        &self,
        alloc: Global,
        marks: &mut Vec<usize>,
        start: usize,
        mark: usize,
    ) -> Result<Vec<usize>, AllocError> {
        let mut found = Vec::new(alloc);
        found.push(start)?;
        for next in 0..self.naming.len() {
            match found.get(next) {
                Some(at) => {
                    for other in row(self.naming.as_slice(), *at) {
                        if is_new(marks, *other, mark) {
                            found.push(*other)?;
                        }
                    }
                }
                None => break,
            }
        }
        Ok(found)
    }
}

/// A step of a depth-first search.
#[derive(Drop)]
enum Visit {
    Enter(usize),
    Leave(usize),
}

/// The steps so far, and those into these classes, the first one first.
fn enter_all(mut left: Vec<Visit>, row: &[usize]) -> Result<Vec<Visit>, AllocError> {
    for at in row.iter().rev() {
        left.push(Visit::Enter(*at))?;
    }
    Ok(left)
}

fn row(rows: &[Vec<usize>], at: usize) -> &[usize] {
    match rows.get(at) {
        Some(row) => row.as_slice(),
        None => &[],
    }
}

/// So many zeros: nothing has a mark.
fn numbers(alloc: Global, count: usize) -> Result<Vec<usize>, AllocError> {
    let mut numbers = Vec::new(alloc);
    for _ in 0..count {
        numbers.push(0)?;
    }
    Ok(numbers)
}

/// Whether a number has no mark yet. It gets this one.
fn is_new(marks: &mut Vec<usize>, at: usize, mark: usize) -> bool {
    match marks.get_mut(at) {
        Some(slot) if *slot == 0 => {
            *slot = mark;
            true
        }
        _ => false,
    }
}
