ghost use Rattle.std.specs.Prelude.{◌≡◌, ◌≤◌, length, chars, IfOk, IfErr, MatchResult};
ghost use Rattle.mono_syntax.specs.declared.tree.Script.{Script as Tree};
ghost use Rattle.mono_syntax.specs.declared.refusal.LoadFault.TheVariants.{Memory};
ghost use Rattle.py_lexer.specs.Lexes.{Lexes};
ghost use Rattle.parse_script.specs.Script.{DerivesScript, IsRefused, IsLeft};

use crate::around::top;
use crate::script::script_step;
use crate::stage::{Stage, Turn};
use mono_list::Shared;
use mono_syntax::{Item, LoadFault, Script};
use parse_expr::refused;
use py_lexer::Token;
use spelled_tokens::spell;
use sqlite_items::Items;
use std::alloc::Global;

/// The script of these items, which END ends, where no token is left.
fn whole(
    alloc: Global,
    tokens: &[Token],
    behind: usize,
    items: Items<Item>,
) -> Result<Script, LoadFault>
    ensures accepted { IfOk result (λ s. (s ≡ record { items = items }) × (length tokens.now ≤ behind)) }
    ensures refused { IfErr result (IsLeft tokens.now behind) }
{
    if behind < tokens.len() {
        return Err(refused(tokens[behind].place));
    }
    let items = Shared::new(alloc, items)?;
    Ok(Script { items })
}

/// The tree of a script's tokens, or a refusal. Each token is spelled and looked at once.
fn read(alloc: Global, tokens: &[Token], text: &str) -> Result<Script, LoadFault>
    requires lexed { Lexes (chars text.now) tokens.now }
    ensures accepted { IfOk result (λ script. DerivesScript text.now tokens.now script) }
    ensures refused { IfErr result (IsRefused text.now tokens.now) }
{
    let mut stage = Stage::Start(top(alloc, Items::new(alloc)));
    let mut at = 0;
    loop {
        let token = spell(alloc, text, &tokens[at])?;
        match script_step(alloc, stage, token)? {
            Turn::Go(next) => stage = next,
            Turn::Done(items) => return whole(alloc, tokens, at + 1, items),
            Turn::Stop => return Err(refused(tokens[at].place)),
        }
        at += 1;
    }
}

/// The tree of a script's tokens, or a refusal at the first token such that the tokens up to and with it begin no script. The
/// depth of the script costs no stack.
pub fn parse(alloc: Global, tokens: &[Token], text: &str) -> Result<Script, LoadFault>
    requires lexed { Lexes (chars text.now) tokens.now }

    // What is accepted has this tree.
    ensures accepted { IfOk result (λ script. DerivesScript text.now tokens.now script) }

    // What is refused is refused where no script goes on.
    ensures refused { IfErr result (IsRefused text.now tokens.now) }

    // Tokens with a tree are accepted with it, unless memory runs out.
    ensures complete { (tree : Tree) → DerivesScript text.now tokens.now tree →
        MatchResult result (λ script. script ≡ tree) (λ fault. fault ≡ Memory) }
{
    read(alloc, tokens, text)
}
