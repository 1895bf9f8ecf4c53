ghost use Rattle.std.specs.Prelude.{◌≡◌, ◌≤◌, length, chars, IfOk, IfErr};
ghost use Rattle.std.specs.Str.{IsUtf8};
ghost use Rattle.mono_syntax.specs.Limits.{most_bytes};
ghost use Rattle.mono_syntax.specs.declared.refusal.Refusal.{Refusal};
ghost use Rattle.py_lexer.specs.Lexes.{Lexes};
ghost use Rattle.script_rules.specs.LoadFaults.{IsFault, Refuses};
ghost use Rattle.script_rules.specs.ScopeFaults.{IsRight};
ghost use Rattle.script_rules.specs.Scoping.{IsScope};
ghost use Rattle.script_rules.specs.WellTyped.{IsWellTypedProgram};
ghost use Rattle.script_shape.specs.Shapes.{IsShaped};
ghost use Rattle.static_types.specs.Scripts.{IsTypeFault};
ghost use Rattle.cast_rules.specs.HasCasts.{HasCasts};
ghost use Rattle.written_types.specs.ScriptTypes.{AreScriptTypes};
ghost use Rattle.mono_syntax.specs.declared.tree.Script.{Script};
ghost use Rattle.type_shapes.specs.Limits.{IsWithinLimits};
ghost use Rattle.load_script.specs.TreePhases.{IsClosedListOf, RefusesTypes, RefusesCasts, IsNumbered, IsTreeProgram, RefusesTree};
ghost use Rattle.load_script.specs.Phases.{IsTokensProgram, RefusesTokens, IsTextProgram, RefusesText, IsProgramOf, IsFirstRefusal};

use crate::accepted::Accepted;
use crate::numbers::number_closed;
use cast_insert::{insert, script_types};
use consistency::check;
use indexmap::IndexSet;
use meet_closure::close;
use mono_list::Shared;
use mono_syntax::{CastScript, LoadFault, Scoped, Script, Ty};
use mono_tree::copy_type;
use name_scope::scope;
use parse_script::parse;
use py_lexer::{Token, decode, lex};
use sqlite_items::Items;
use std::alloc::{AllocError, Global};

/// A script whose names are right: its expressions get their types, and then it gets its casts.
fn load_typed(alloc: Global, scoped: Scoped) -> Result<CastScript, LoadFault>
    requires shape { IsShaped scoped.script }
    requires right { IsRight scoped.script }
    requires scope { IsScope scoped.script scoped }
    ensures accepted { IfOk result (HasCasts scoped) }
    ensures typed { IfOk result (λ p. (r : Refusal) → IsTypeFault scoped.script r → ⊥) }
    ensures refused { IfErr result (IsFault (IsTypeFault scoped.script)) }
    ensures refuses { (r : Refusal) → IsTypeFault scoped.script r → Refuses result r }
    ensures well_typed { IfOk result IsWellTypedProgram }
{
    let scoped = Shared::new(alloc, scoped)?;
    let typed = check(alloc, &scoped)?;
    let script = insert(alloc, &typed)?;
    Ok(script)
}

/// The same types, each one's parts shared.
fn own_types(alloc: Global, types: &[Shared<Ty>]) -> Result<Items<Ty>, AllocError>
    ensures { IfOk result (λ own. own ≡ types.now) }
{
    let mut own = Items::new(alloc);
    for ty in types {
        own.push(copy_type(alloc, ty.get())?)?;
    }
    Ok(own)
}

/// The closed list of the types that a script writes, or the refusal of it.
fn close_written(alloc: Global, written: &[Ty]) -> Result<IndexSet<Ty>, LoadFault>
    ensures accepted { (s : Script) → AreScriptTypes s written.now → IfOk result (λ l. IsClosedListOf s l.keys × IsWithinLimits l.keys) }
    ensures refused { (s : Script) → AreScriptTypes s written.now → IfErr result (IsFault (RefusesTypes s)) }
    ensures refuses { (s : Script) → AreScriptTypes s written.now → (r : Refusal) → RefusesTypes s r → Refuses result r }
{
    match close(alloc, written) {
        Ok(closed) => Ok(closed),
        Err(fault) => Err(fault),
    }
}

/// The closed list of the types that a script with its casts writes.
fn closed_types(alloc: Global, script: &CastScript) -> Result<IndexSet<Ty>, LoadFault>
    requires { IsWellTypedProgram script.now }
    ensures accepted { IfOk result (λ l. IsClosedListOf script.now.scoped.script l.keys × IsWithinLimits l.keys) }
    ensures refused { IfErr result (IsFault (RefusesTypes script.now.scoped.script)) }
    ensures refuses { (r : Refusal) → RefusesTypes script.now.scoped.script r → Refuses result r }
{
    let shared = script_types(alloc, script)?;
    let written = own_types(alloc, shared.as_slice())?;
    close_written(alloc, written.as_slice())
}

/// A script with its casts whose types are closed: it gets its numbers.
fn with_numbers(
    alloc: Global,
    script: CastScript,
    closed: IndexSet<Ty>,
) -> Result<Accepted, LoadFault>
    requires well_typed { IsWellTypedProgram script }
    requires casts { HasCasts script.scoped script }
    requires closed { IsClosedListOf script.scoped.script closed.keys }
    requires within { IsWithinLimits closed.keys }
    ensures script { IfOk result (λ a. a.script ≡ script) }
    ensures accepted { IfOk result (IsNumbered script.scoped.script) }
    ensures refused { IfErr result (IsFault (RefusesCasts script)) }
    ensures refuses { (r : Refusal) → RefusesCasts script r → Refuses result r }
{
    match number_closed(alloc, &script, closed) {
        Ok(program) => Ok(Accepted { script, program }),
        Err(fault) => Err(fault),
    }
}

/// A script with its casts: its types are closed, and then it gets its numbers.
fn number_script(alloc: Global, script: CastScript) -> Result<Accepted, LoadFault>
    requires well_typed { IsWellTypedProgram script }
    requires casts { HasCasts script.scoped script }
    ensures script { IfOk result (λ a. a.script ≡ script) }
    ensures accepted { IfOk result (IsNumbered script.scoped.script) }
    ensures refused { IfErr result (IsFault (RefusesCasts script)) }
    ensures refuses { (r : Refusal) → RefusesCasts script r → Refuses result r }
{
    match closed_types(alloc, &script) {
        Ok(closed) => with_numbers(alloc, script, closed),
        Err(fault) => Err(fault),
    }
}

/// A script whose names are right, up to its numbers.
fn load_scoped(alloc: Global, scoped: Scoped) -> Result<Accepted, LoadFault>
    requires shape { IsShaped scoped.script }
    requires right { IsRight scoped.script }
    requires scope { IsScope scoped.script scoped }
    ensures accepted { IfOk result (IsTreeProgram scoped.script) }
    ensures refused { IfErr result (IsFault (RefusesTree scoped.script)) }
    ensures refuses { (r : Refusal) → RefusesTree scoped.script r → Refuses result r }
    ensures well_typed { IfOk result (λ p. IsWellTypedProgram p.script) }
{
    match load_typed(alloc, scoped) {
        Ok(script) => number_script(alloc, script),
        Err(fault) => Err(fault),
    }
}

/// A tree: its names get their types first.
fn load_tree(alloc: Global, script: &Script) -> Result<Accepted, LoadFault>
    requires { IsShaped script.now }
    ensures accepted { IfOk result (IsTreeProgram script.now) }
    ensures refused { IfErr result (IsFault (RefusesTree script.now)) }
    ensures refuses { (r : Refusal) → RefusesTree script.now r → Refuses result r }
    ensures well_typed { IfOk result (λ p. IsWellTypedProgram p.script) }
{
    match scope(alloc, script) {
        Ok(scoped) => load_scoped(alloc, scoped),
        Err(fault) => Err(fault),
    }
}

fn load_tokens(alloc: Global, tokens: &[Token], text: &str) -> Result<Accepted, LoadFault>
    requires length { length text.now ≤ most_bytes }
    requires lexed { Lexes (chars text.now) tokens.now }
    ensures accepted { IfOk result (IsTokensProgram text.now tokens.now) }
    ensures refused { IfErr result (IsFault (RefusesTokens text.now tokens.now)) }
    ensures refuses { (r : Refusal) → RefusesTokens text.now tokens.now r → Refuses result r }
    ensures well_typed { IfOk result (λ p. IsWellTypedProgram p.script) }
{
    match parse(alloc, tokens, text) {
        Ok(script) => load_tree(alloc, &script),
        Err(fault) => Err(fault),
    }
}

fn load_text(alloc: Global, text: &str) -> Result<Accepted, LoadFault>
    requires { length text.now ≤ most_bytes }
    ensures accepted { IfOk result (IsTextProgram text.now) }
    ensures refused { IfErr result (IsFault (RefusesText text.now)) }
    ensures refuses { (r : Refusal) → RefusesText text.now r → Refuses result r }
    ensures well_typed { IfOk result (λ p. IsWellTypedProgram p.script) }
{
    match lex(alloc, text) {
        Ok(tokens) => load_tokens(alloc, tokens.as_slice(), text),
        Err(fault) => Err(fault),
    }
}

/// The accepted script of some bytes, or the first refusal: the bytes are decoded, cut into tokens and read as a tree; its names and sizes
/// and its types are looked at; it gets its casts, its types are closed, and it gets its numbers.
pub fn load(alloc: Global, bytes: &[u8]) -> Result<Accepted, LoadFault>
    requires { length bytes.now ≤ most_bytes }
    ensures accepted { IfOk result (IsProgramOf bytes.now) }
    ensures refused { IfErr result (IsFault (IsFirstRefusal bytes.now)) }

    // What the rules refuse is refused so, unless there is no memory.
    ensures refuses { (r : Refusal) → IsFirstRefusal bytes.now r → Refuses result r }

    ensures well_typed { IfOk result (λ p. IsWellTypedProgram p.script) }
{
    match decode(bytes) {
        Ok(text) => load_text(alloc, text),
        Err(refusal) => Err(LoadFault::Refused(refusal)),
    }
}
