ghost use Rattle.std.specs.Prelude.{◌≡◌, ◌+◌, ◌++◌, ◌≤◌, [], ◌∷◌, false, if◌then◌else◌, Some, None, length, chars, encode_utf8_all, replicate, IfOk, IfErr, OnOk};
ghost use Rattle.py_lexer.specs.Bounds.{Fits};
ghost use Rattle.py_lexer.specs.Layout.{first_tab, opened, top, kept, left, levels_at, is_misfit, is_reserved, indent, mark, token, what_of, dents};
ghost use Rattle.py_lexer.specs.Faults.{is_word};
ghost use Rattle.py_lexer.specs.computed.Scanning.{RefusedBy, step_refusal, spelling_refusal, line_refusal, tab_refusal, refuse_if, or_else, is_stray, step_tokens, end_tokens, line_dents, next_state, spelled_state, ended_state, end_refusal, last_tokens};
ghost use Rattle.mono_syntax.specs.declared.Reason.TheVariants.{BadChar, BadDedent};
ghost use Rattle.py_lexer.specs.declared.token.TokenKind.TheVariants.{Dedent, Reserved, Name};

use crate::fault::{answer, check_own, first_control, refusal};
use crate::piece::Kind;
use crate::reserved::is_reserved;
use crate::spot::{Spot, behind_one};
use crate::token::{Token, TokenKind};
use mono_list::Stack;
use mono_syntax::{LoadFault, Reason, Refusal};
use py_chars::first_char;
use std::alloc::{AllocError, Global};

/// What the pieces read so far leave behind: the open brackets and the columns of the open blocks, the innermost on top,
/// whether a logical line has begun, whether a word stands just before, and the first tab of the white space just before.
#[derive(Drop)]
pub struct State {
    pub opens: Stack<Spot>,
    pub levels: Stack<u32>,
    pub inside: bool,
    pub joined: bool,
    pub tab: Option<Spot>,
}

impl State {
    ghost use Rattle.py_lexer.specs.computed.Scanning.{start_state};

    /// The state at the start of a text.
    pub fn new(alloc: Global) -> State
        ensures { result ≡ start_state }
    {
        State {
            opens: Stack::new(alloc),
            levels: Stack::new(alloc),
            inside: false,
            joined: false,
            tab: None,
        }
    }
}

fn mark(what: TokenKind, spot: Spot) -> Token
    ensures { result ≡ mark what spot }
{
    Token {
        what,
        from: spot.offset,
        to: spot.offset,
        place: spot.place,
    }
}

fn word_kind(word: &str) -> TokenKind
    ensures { result ≡ (if is_reserved (encode_utf8_all (chars word.now)) then Reserved else Name) }
{
    if is_reserved(word) {
        TokenKind::Reserved
    } else {
        TokenKind::Name
    }
}

fn what_of(kind: Kind, spelling: &str) -> TokenKind
    ensures { result ≡ what_of kind (chars spelling.now) }
{
    match kind {
        Kind::Word => word_kind(spelling),
        Kind::Number => TokenKind::Number,
        Kind::Text => TokenKind::Str,
        _ => TokenKind::Sign,
    }
}

fn token(kind: Kind, spelling: &str, spot: Spot) -> Token
    requires { Fits spot (length spelling.now) }
    ensures { result ≡ token kind (chars spelling.now) spot }
{
    let what = what_of(kind, spelling);
    let to = spot.offset + spelling.len() as u32;
    Token {
        what,
        from: spot.offset,
        to,
        place: spot.place,
    }
}

/// The spot of the first tab of a white space.
fn first_tab(spot: Spot, text: &str) -> Option<Spot>
    requires { Fits spot (length text.now) }
    ensures { result ≡ first_tab spot (chars text.now) }
{
    let mut at = spot;
    let mut rest = text;
    while let Some((c, behind)) = first_char(rest) {
        if c == '\t' {
            return Some(at);
        }
        at = behind_one(at, c);
        rest = behind;
    }
    None
}

fn top(levels: &Stack<u32>) -> u32
    ensures { result ≡ top levels.now }
{
    match levels.bottom_up() {
        [] => 0,
        [.., last] => *last,
    }
}

/// Leaves the blocks whose column is above n, with a DEDENT at the spot for each.
fn leave(
    levels: Stack<u32>,
    n: u32,
    spot: Spot,
    tokens: &mut Vec<Token>,
) -> Result<Stack<u32>, AllocError>
    ensures levels { IfOk result (λ ls. ls ≡ kept levels n) }
    ensures tokens { OnOk result (tokens.new.items ≡ tokens.old.items ++ replicate (left levels n) (mark Dedent spot)) }
{
    let mut levels = levels;
    while let Some(level) = levels.pop() {
        if level <= n {
            levels.push(level)?;
            return Ok(levels);
        }
        tokens.push(mark(TokenKind::Dedent, spot))?;
    }
    Ok(levels)
}

/// Begins a logical line at the spot: the blocks behind it, with INDENT or DEDENTs.
fn indented(
    levels: Stack<u32>,
    spot: Spot,
    tokens: &mut Vec<Token>,
) -> Result<Stack<u32>, LoadFault>
    ensures levels { IfOk result (λ ls. (is_misfit levels (indent spot) ≡ false) × (ls ≡ levels_at levels (indent spot))) }
    ensures tokens { OnOk result (tokens.new.items ≡ tokens.old.items ++ dents levels spot) }
    ensures refused { IfErr result (RefusedBy (refuse_if (is_misfit levels (indent spot)) BadDedent spot)) }
{
    let mut levels = levels;
    let n = spot.place.column.saturating_sub(1);
    if top(&levels) < n {
        levels.push(n)?;
        tokens.push(mark(TokenKind::Indent, spot))?;
        return Ok(levels);
    }
    let levels = leave(levels, n, spot, tokens)?;
    if top(&levels) != n {
        return Err(LoadFault::Refused(refusal(Reason::BadDedent, spot)));
    }
    Ok(levels)
}

fn tab_refusal(tab: Option<Spot>) -> Option<Refusal>
    ensures { result ≡ tab_refusal tab }
{
    match tab {
        None => None,
        Some(spot) => Some(refusal(Reason::Tab, spot)),
    }
}

fn is_word(kind: Kind) -> bool
    ensures { result ≡ is_word kind }
{
    match kind {
        Kind::Word => true,
        _ => false,
    }
}

fn is_stray(kind: Kind) -> bool
    ensures { result ≡ is_stray kind }
{
    match kind {
        Kind::Stray => true,
        _ => false,
    }
}

/// What refuses the beginning of a logical line before its column does.
fn begin_refusal(tab: Option<Spot>, kind: Kind, spot: Spot) -> Option<Refusal>
    ensures { result ≡ or_else (tab_refusal tab) (refuse_if (is_stray kind) BadChar spot) }
{
    match tab_refusal(tab) {
        Some(found) => Some(found),
        None => {
            if is_stray(kind) {
                Some(refusal(Reason::BadChar, spot))
            } else {
                None
            }
        }
    }
}

/// Begins a logical line, where none has begun.
fn begin(state: State, kind: Kind, spot: Spot, tokens: &mut Vec<Token>) -> Result<State, LoadFault>
    ensures state { IfOk result (λ st. (line_refusal state kind spot ≡ None) × (st ≡ record state { levels = if state.inside then state.levels else levels_at state.levels (indent spot) })) }
    ensures tokens { OnOk result (tokens.new.items ≡ tokens.old.items ++ line_dents state spot) }
    ensures refused { IfErr result (RefusedBy (line_refusal state kind spot)) }
{
    if state.inside {
        return Ok(state);
    }
    answer(begin_refusal(state.tab, kind, spot))?;
    let State {
        opens,
        levels,
        inside,
        joined,
        tab,
    } = state;
    let levels = indented(levels, spot, tokens)?;
    Ok(State {
        opens,
        levels,
        inside,
        joined,
        tab,
    })
}

/// The brackets open behind an operator.
fn opened(opens: Stack<Spot>, sign: &str, spot: Spot) -> Result<Stack<Spot>, AllocError>
    ensures { IfOk result (λ now. now ≡ opened opens (chars sign.now) spot) }
{
    let mut opens = opens;
    match first_char(sign) {
        Some(('(' | '[', _)) => opens.push(spot)?,
        Some((')' | ']', _)) => {
            let _closed = opens.pop();
        }
        _ => {}
    }
    Ok(opens)
}

/// Reads a spelling.
fn spell(
    alloc: Global,
    state: State,
    spot: Spot,
    kind: Kind,
    spelling: &str,
    behind: &str,
    tokens: &mut Vec<Token>,
) -> Result<State, LoadFault>
    requires { Fits spot (length spelling.now) }
    ensures state { IfOk result (λ st. (spelling_refusal state spot kind (chars spelling.now) (chars behind.now) ≡ None) × (st ≡ spelled_state state spot kind (chars spelling.now))) }
    ensures tokens { OnOk result (tokens.new.items ≡ tokens.old.items ++ (line_dents state spot ++ token kind (chars spelling.now) spot ∷ [])) }
    ensures refused { IfErr result (RefusedBy (spelling_refusal state spot kind (chars spelling.now) (chars behind.now))) }
{
    let state = begin(state, kind, spot, tokens)?;
    check_own(alloc, kind, state.joined, spot, spelling, behind)?;
    tokens.push(token(kind, spelling, spot))?;
    let opens = match kind {
        Kind::Sign => opened(state.opens, spelling, spot)?,
        _ => state.opens,
    };
    Ok(State {
        opens,
        levels: state.levels,
        inside: true,
        joined: is_word(kind),
        tab: None,
    })
}

/// Ends a line, and with it the logical line where no bracket is open.
fn end_line(state: State, spot: Spot, tokens: &mut Vec<Token>) -> Result<State, LoadFault>
    ensures state { IfOk result (λ st. st ≡ ended_state state) }
    ensures tokens { OnOk result (tokens.new.items ≡ tokens.old.items ++ end_tokens state spot) }
    ensures memory { IfErr result (RefusedBy None) }
{
    let mut state = state;
    state.joined = false;
    state.tab = None;
    if state.opens.len() == 0 {
        if state.inside {
            tokens.push(mark(TokenKind::Newline, spot))?;
        }
        state.inside = false;
    }
    Ok(state)
}

/// Reads a piece that stands at the spot: the state behind it, with its tokens.
pub fn step(
    alloc: Global,
    state: State,
    spot: Spot,
    kind: Kind,
    spelling: &str,
    behind: &str,
    tokens: &mut Vec<Token>,
) -> Result<State, LoadFault>
    requires { Fits spot (length spelling.now) }
    ensures state { IfOk result (λ st. (step_refusal state spot kind (chars spelling.now) (chars behind.now) ≡ None) × (st ≡ next_state state spot kind (chars spelling.now))) }
    ensures tokens { OnOk result (tokens.new.items ≡ tokens.old.items ++ step_tokens state spot kind (chars spelling.now)) }
    ensures refused { IfErr result (RefusedBy (step_refusal state spot kind (chars spelling.now) (chars behind.now))) }
{
    match kind {
        Kind::Blank => Ok(State {
            opens: state.opens,
            levels: state.levels,
            inside: state.inside,
            joined: false,
            tab: first_tab(spot, spelling),
        }),
        Kind::Comment => {
            answer(first_control(spot, spelling))?;
            Ok(State {
                opens: state.opens,
                levels: state.levels,
                inside: state.inside,
                joined: false,
                tab: None,
            })
        }
        Kind::LineEnd => end_line(state, spot, tokens),
        Kind::Word | Kind::Number | Kind::Text | Kind::Unclosed | Kind::Sign | Kind::Stray => {
            spell(alloc, state, spot, kind, spelling, behind, tokens)
        }
    }
}

/// Ends the text at the spot, where no bracket may be open.
pub fn finish(state: State, spot: Spot, tokens: &mut Vec<Token>) -> Result<(), LoadFault>
    ensures ok { OnOk result (end_refusal state.opens ≡ None) }
    ensures tokens { OnOk result (tokens.new.items ≡ tokens.old.items ++ last_tokens state spot) }
    ensures refused { IfErr result (RefusedBy (end_refusal state.opens)) }
{
    let State {
        mut opens,
        levels,
        inside,
        joined: _,
        tab: _,
    } = state;
    if let Some(bracket) = opens.pop() {
        return Err(LoadFault::Refused(refusal(Reason::OpenBracket, bracket)));
    }
    if inside {
        tokens.push(mark(TokenKind::Newline, spot))?;
    }
    let _levels = leave(levels, 0, spot, tokens)?;
    tokens.push(mark(TokenKind::End, spot))?;
    Ok(())
}
