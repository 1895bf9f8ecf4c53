ghost use Rattle.std.specs.Prelude.{◌≡◌, OnOk};
ghost use Rattle.token_lines.specs.declared.printed.Printed.TheVariants.{Plain};
ghost use Rattle.token_lines.specs.Sheets.{put};
ghost use Rattle.tree_print.specs.Brackets.{sign, name};

use mono_syntax::Word;
use spelled_tokens::{Mark, What};
use std::alloc::{AllocError, Global};
use token_lines::{Page, Printed};

/// Adds a token.
pub fn put_what(alloc: Global, page: &mut Page, what: What) -> Result<(), AllocError>
    ensures { OnOk result (page.new ≡ put page.old (Plain what)) }
{
    page.put(alloc, &Printed::Plain(what))
}

/// Adds a word or a bracket.
pub fn put_sign(alloc: Global, page: &mut Page, mark: Mark) -> Result<(), AllocError>
    ensures { OnOk result (page.new ≡ put page.old (sign mark)) }
{
    put_what(alloc, page, What::Mark(mark))
}

/// Adds a name.
pub fn put_name(alloc: Global, page: &mut Page, word: &Word) -> Result<(), AllocError>
    ensures { OnOk result (page.new ≡ put page.old (name word.now)) }
{
    let text = word.text.share()?;
    put_what(alloc, page, What::Name(text))
}
