ghost use Rattle.std.specs.Prelude.{◌≡◌, ◌++◌, IfOk, OnOk, string_bytes};
ghost use Rattle.token_lines.specs.Lines.{lines_text};
ghost use Rattle.tree_print.specs.ScriptLines.{item_lines, items_lines, script_lines};
ghost use Rattle.tree_print.specs.ReadsBack.{IsGrammatical, ReadsBack};

use crate::definitions::{put_class, put_def};
use crate::statements::put_stmt;
use mono_syntax::{Item, Script};
use std::alloc::{AllocError, Global};
use token_lines::{Indent, Page};

fn put_item(alloc: Global, page: &mut Page, indent: &Indent, item: &Item) -> Result<(), AllocError>
    requires { indent.now ≡ 0 }
    ensures { OnOk result (page.new.text ≡ page.old.text ++ lines_text (item_lines item.now)) }
{
    match item {
        Item::Class(class) => put_class(alloc, page, indent, class),
        Item::Def(def) => put_def(alloc, page, indent, def),
        Item::Stmt(s) => put_stmt(alloc, page, indent, s),
    }
}

#[tactic(auto, using(crate::proofs::Lines::lines))]
fn put_items(
    alloc: Global,
    page: &mut Page,
    indent: &Indent,
    items: &[Item],
) -> Result<(), AllocError>
    requires { indent.now ≡ 0 }
    ensures { OnOk result (page.new.text ≡ page.old.text ++ lines_text (items_lines items.now)) }
{
    for item in items {
        put_item(alloc, page, indent, item)?;
    }
    Ok(())
}

/// The bytes of a script's text, also where a name is no text.
fn print_bytes(alloc: Global, script: &Script) -> Result<Vec<u8>, AllocError>
    ensures { IfOk result (λ bytes. bytes.items ≡ lines_text (script_lines script.now)) }
{
    let mut page = Page::new(alloc);
    let indent = Indent::new(alloc);
    put_items(alloc, &mut page, &indent, script.items.get().as_slice())?;
    Ok(page.into_bytes())
}

/// The text of a script: a line for each statement, with four spaces for each block, one space where the rules of spacing
/// put one, and brackets only where the tree needs them. Comments and blank lines aren't in the tree, and so aren't printed.
///
/// The script is one that the grammar gives. The text reads back: it has the same tree but for places.
pub fn print_script(alloc: Global, script: &Script) -> Result<String, AllocError>
    requires { IsGrammatical script.now }
    ensures text { IfOk result (λ text. string_bytes text ≡ lines_text (script_lines script.now)) }
    ensures reads_back { IfOk result (λ text. ReadsBack (string_bytes text) script.now) }
{
    let bytes = print_bytes(alloc, script)?;
    Ok(String::from_utf8(bytes).unwrap())
}
