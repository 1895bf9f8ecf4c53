ghost use Rattle.std.specs.Prelude.{◌≡◌, ◌<◌, ◌≤◌, ◌∷◌, ◌++◌, ℕ, List, Option, [], length, Contains, IfOk};
ghost use Rattle.mono_io.specs.Puts.{Puts};
ghost use Rattle.tree_print.specs.ReadsBack.{IsGrammatical};
ghost use Rattle.mono_syntax.specs.Ty.{Ty};
ghost use Rattle.mono_tree.specs.TypeText.{HasTextNames};
ghost use Rattle.mono_cli.specs.Answer.{passed, types_text, types_listed};
ghost use Rattle.mono_cli.specs.Scripts.{IsCastList, IsListing};
ghost use Rattle.mono_cli.specs.Putting.{stream, IsPut, PutsAnswer};

use crate::render::put_piece;
use mono_io::{Sink, SinkFault};
use mono_tree::{CastScript, Script, Ty, type_bytes};
use std::alloc::{AllocError, Global};
use tree_print::{print_casts, print_script};

/// The position behind the line that begins here.
fn line_end(text: &[u8], from: usize) -> usize
    requires { from < length text.now }
    ensures further { from < result }
    ensures within { result ≤ length text.now }
{
    let mut end = from;
    while end < text.len() {
        let byte = text[end];
        end += 1;
        if byte == b'\n' {
            return end;
        }
    }
    end
}

/// Puts a text line by line.
fn put_each_line<K: Sink>(text: &[u8], out: &mut K) -> Result<(), SinkFault>
    ensures { Puts result (K.told out.old) (K.told out.new) (K.faults out.old) (K.faults out.new) text.now }
{
    let mut at = 0;
    while at < text.len() {
        let end = line_end(text, at);
        if let Err(fault) = put_piece(&text[at..end], out) {
            return Err(fault);
        }
        at = end;
    }
    Ok(())
}

/// Puts a text on out line by line, and gives the status; nothing is for err.
fn put_text<K: Sink>(text: &[u8], out: &mut K) -> u8
    ensures { (x : Option (List ℕ)) (e : ℕ) → IsPut (record { status = 0; out = text.now; err = [] })
        (stream (K.told out.old) (K.told out.new) (K.faults out.old) (K.faults out.new)) (stream x x e e) result }
{
    match put_each_line(text, out) {
        Ok(()) => 0,
        Err(SinkFault::Failed) => 7,
        Err(SinkFault::Memory) => 8,
    }
}

/// Puts that nothing is wrong with a script.
pub fn put_passed<K: Sink>(out: &mut K) -> u8
    ensures { (x : Option (List ℕ)) (e : ℕ) → PutsAnswer (λ a. a ≡ passed)
        (stream (K.told out.old) (K.told out.new) (K.faults out.old) (K.faults out.new)) (stream x x e e) result }
{
    put_text(b"ok\n", out)
}

/// Puts the casts of a script.
pub fn put_casts<K: Sink>(alloc: Global, script: &CastScript, out: &mut K) -> u8
    requires texts { (t : Ty) → Contains script.now.types t → HasTextNames t }
    ensures { (x : Option (List ℕ)) (e : ℕ) → PutsAnswer (λ a. IsCastList script.now a)
        (stream (K.told out.old) (K.told out.new) (K.faults out.old) (K.faults out.new)) (stream x x e e) result }
{
    let Ok(text) = print_casts(alloc, script) else {
        return 8;
    };
    put_text(text.as_bytes(), out)
}

/// Puts a script's text.
pub fn put_listing<K: Sink>(alloc: Global, script: &Script, out: &mut K) -> u8
    requires { IsGrammatical script.now }
    ensures { (x : Option (List ℕ)) (e : ℕ) → PutsAnswer (λ a. IsListing script.now a)
        (stream (K.told out.old) (K.told out.new) (K.faults out.old) (K.faults out.new)) (stream x x e e) result }
{
    let Ok(text) = print_script(alloc, script) else {
        return 8;
    };
    put_text(text.as_bytes(), out)
}

/// The text with one more line: a type's number, a space, and its text.
fn with_type_line(
    alloc: Global,
    text: Vec<u8>,
    number: usize,
    ty: &Ty,
) -> Result<Vec<u8>, AllocError>
    ensures { IfOk result (λ more. more.items ≡ text.items ++ types_text number (ty.now ∷ [])) }
{
    let mut more = text;
    let head = format!(in alloc; "{number} ")?;
    let bytes = type_bytes(alloc, ty)?;
    more.extend_from_slice(head.as_bytes())?;
    more.extend_from_slice(bytes.as_slice())?;
    more.push(b'\n')?;
    Ok(more)
}

/// The types with their numbers, a line each.
fn types_text(alloc: Global, types: &[Ty]) -> Result<Vec<u8>, AllocError>
    ensures { IfOk result (λ text. text.items ≡ types_text 0 types.now) }
{
    let mut text = Vec::new(alloc);
    for (number, ty) in types.iter().enumerate() {
        text = with_type_line(alloc, text, number, ty)?;
    }
    Ok(text)
}

/// Puts the closed types of a script.
pub fn put_types<K: Sink>(alloc: Global, types: &[Ty], out: &mut K) -> u8
    ensures { (x : Option (List ℕ)) (e : ℕ) → PutsAnswer (λ a. a ≡ types_listed types.now)
        (stream (K.told out.old) (K.told out.new) (K.faults out.old) (K.faults out.new)) (stream x x e e) result }
{
    let Ok(text) = types_text(alloc, types) else {
        return 8;
    };
    put_text(text.as_slice(), out)
}
