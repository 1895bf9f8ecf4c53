//! What holds of the lexical rules themselves.
ghost use Rattle.py_lexer.specs.Lexes.{AlwaysLexes, NeverBoth, OneTokenList, OneFirstFault};

/// Every text, whatever its length, has tokens or a first fault and never both; its tokens are one list, and its first fault
/// is one.
pub fn one_answer()
    ensures always { AlwaysLexes }
    ensures never_both { NeverBoth }
    ensures one_list { OneTokenList }
    ensures one_fault { OneFirstFault }
{}
