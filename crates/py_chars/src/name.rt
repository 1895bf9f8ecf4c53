ghost use Rattle.std.specs.Prelude.{◌≡◌, chars, IfOk};
ghost use Rattle.std.specs.List.{list_all};
ghost use Rattle.unicode_ident.specs.Ident.{is_xid_continue};
ghost use Rattle.py_chars.specs.Spellings.{starts_name, is_identifier, is_name};

use crate::text::first_char;
use std::alloc::{AllocError, Global};
use unicode_ident::{is_xid_continue, is_xid_start};
use unicode_normalization::is_nfkc;

/// Whether a name may begin with the character.
pub fn starts_name(c: char) -> bool
    ensures { result ≡ starts_name c }
{
    is_xid_start(c) || c == '_'
}

fn all_continue(text: &str) -> bool
    ensures { result ≡ list_all is_xid_continue (chars text.now) }
{
    let mut rest = text;
    while let Some((c, behind)) = first_char(rest) {
        if !is_xid_continue(c) {
            return false;
        }
        rest = behind;
    }
    true
}

fn is_identifier(text: &str) -> bool
    ensures { result ≡ is_identifier (chars text.now) }
{
    match first_char(text) {
        None => false,
        Some((c, behind)) => starts_name(c) && all_continue(behind),
    }
}

#[tactic(auto, unfolding(crate::specs::Spellings::is_name))]
/// Whether the text is an identifier in the normalization form NFKC.
pub fn name_ok(alloc: Global, text: &str) -> Result<bool, AllocError>
    ensures { IfOk result (λ ok. ok ≡ is_name (chars text.now)) }
{
    if !is_identifier(text) {
        return Ok(false);
    }
    let in_form = is_nfkc(alloc, text)?;
    Ok(in_form)
}
