//! The spellings of names, numbers and strings, one at a time. A spelling comes in, and its value goes out, or the answer
//! that it is none; the contracts say which spellings have a value, and which value, exactly.
#![tactic(auto)]

mod name;
mod number;
mod string;
mod text;

pub use name::{name_ok, starts_name};
pub use number::number_value;
pub use string::{StringFault, bad_escape, string_value};
pub use text::first_char;

#[cfg(test)]
mod tests {
    use super::*;
    use std::test::Fail;

    #[test]
    fn names(rt: HostRuntime) -> Result<(), Fail> {
        for good in ["a", "_x1", "\u{e9}"] {
            assert!(rt; name_ok(rt.alloc(), good)?);
        }
        // No character, a digit in front, and a fullwidth letter, which NFKC replaces.
        for bad in ["", "1a", "\u{ff58}"] {
            assert!(rt; !name_ok(rt.alloc(), bad)?);
        }
        Ok(())
    }

    #[test]
    fn spellings(rt: HostRuntime) -> Result<(), Fail> {
        assert_eq!(rt; number_value("140737488355327"), Some(140737488355327));
        let value = string_value(rt.alloc(), "a\\n")?;
        assert_eq!(rt; value.as_str(), "a\n");
        assert_eq!(rt; bad_escape("a\\n\\q"), Some(3));
        Ok(())
    }
}
