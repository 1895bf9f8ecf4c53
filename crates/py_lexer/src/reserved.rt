ghost use Rattle.std.specs.Prelude.{◌≡◌, map};
ghost use Rattle.py_lexer.specs.Layout.{is_in, is_reserved};

/// The words that are no names: Python's keywords, then the words of the language's own types and forms.
pub const RESERVED: [&str; 46] = [
    "False", "None", "True", "and", "as", "assert", "async", "await", "break", "class", "continue",
    "def", "del", "elif", "else", "except", "finally", "for", "from", "global", "if", "import",
    "in", "is", "lambda", "nonlocal", "not", "or", "pass", "raise", "return", "try", "while",
    "with", "yield", "print", "cast", "start", "join", "int", "bool", "str", "Dyn", "Callable",
    "len", "List",
];

fn is_in(mut words: &[&str], word: &str) -> bool
    ensures { result ≡ is_in (map (λ w. w.now) words.entry.now) word.now }
{
    while let [first, rest @ ..] = words {
        if *first == word {
            return true;
        }
        words = rest;
    }
    false
}

/// Whether the word is reserved.
#[tactic(auto, unfolding(crate::specs::Layout::is_reserved))]
pub fn is_reserved(word: &str) -> bool
    ensures { result ≡ is_reserved word.now }
{
    is_in(&RESERVED, word)
}
