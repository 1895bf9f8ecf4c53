ghost use Rattle.std.specs.Prelude.{◌≡◌, IfOk, string_bytes};
ghost use Rattle.std.specs.Option.{option_copied, option_map};
ghost use Rattle.run_report.specs.Ends.{placed_line, kind_text, reason_text, refusal_text, blame_line, error_line, end_text, end_line, status_of};

use cast_machine::End;
use mono_syntax::{Kind, Place, Reason, Refusal, Site};
use program_code::Program;
use std::alloc::{AllocError, Global};

/// A line that names a place.
fn placed_line(alloc: Global, before: &str, place: Place, after: &str) -> Result<String, AllocError>
    ensures { IfOk result (λ text. string_bytes text ≡ placed_line before.now place after.now) }
{
    let line = place.line;
    let column = place.column;
    format!(in alloc; "{before}{line}:{column}{after}\n")
}

fn kind_text(kind: Kind) -> &'static str
    ensures { result.now ≡ kind_text kind }
{
    match kind {
        Kind::Cast => " cast",
        Kind::Argument => " argument",
        Kind::Write => " write",
        Kind::Return => " return",
        Kind::Operator => " operator",
        Kind::Member => " member",
        Kind::Call => " call",
        Kind::Arithmetic => " arithmetic",
        Kind::Name => " name",
    }
}

/// A reason, as it stands behind a place.
fn reason_text(reason: Reason) -> &'static str
    ensures { result.now ≡ reason_text reason }
{
    match reason {
        Reason::BadChar => ": bad character",
        Reason::Tab => ": tab in indentation",
        Reason::BadDedent => ": bad dedent",
        Reason::OpenBracket => ": open bracket",
        Reason::BadName => ": bad name",
        Reason::BadNumber => ": bad number",
        Reason::BadString => ": bad string",
        Reason::Syntax => ": syntax",
        Reason::UnknownName => ": unknown name",
        Reason::Twice => ": name defined twice",
        Reason::Misused => ": misused name",
        Reason::RecursiveClass => ": recursive class",
        Reason::Inconsistent => ": inconsistent types",
        Reason::NoField => ": no such field",
        Reason::Arity => ": wrong number of arguments",
        Reason::NotCallable => ": not callable",
        Reason::TooManyTypes => ": too many types",
        Reason::TypeTooLarge => ": type too large",
        Reason::TooManyFields => ": too many fields",
        Reason::TooManyParameters => ": too many parameters",
        Reason::TooManyArguments => ": too many arguments",
        Reason::TooManyNames => ": too many names",
        Reason::TooManyFunctions => ": too many functions",
        Reason::TooManyClasses => ": too many classes",
        Reason::TooManySites => ": too many sites",
        Reason::TooLong => ": script too long",
        Reason::NotBuilt => ": not built yet",
    }
}

/// The line of a refusal, with its line feed.
pub fn refusal_line(alloc: Global, refusal: &Refusal) -> Result<String, AllocError>
    ensures { IfOk result (λ text. string_bytes text ≡ refusal_text refusal.now) }
{
    placed_line(
        alloc,
        "refused ",
        refusal.place,
        reason_text(refusal.reason),
    )
}

fn blame_line(alloc: Global, site: Option<&Site>) -> Result<String, AllocError>
    ensures { IfOk result (λ text. string_bytes text ≡ blame_line (option_copied site.entry)) }
{
    match site {
        None => Ok(String::new(alloc)),
        Some(site) => placed_line(alloc, "blame ", site.place, kind_text(site.kind)),
    }
}

fn error_line(alloc: Global, what: &str, site: Option<&Site>) -> Result<String, AllocError>
    ensures { IfOk result (λ text. string_bytes text ≡ error_line what.now (option_copied site.entry)) }
{
    match site {
        None => Ok(String::new(alloc)),
        Some(site) => placed_line(alloc, "error ", site.place, what),
    }
}

/// The err line, which is empty for `Done`.
fn end_text(alloc: Global, sites: &[Site], end: End) -> Result<String, AllocError>
    ensures { IfOk result (λ text. string_bytes text ≡ end_text sites.now end) }
{
    match end {
        End::Done => Ok(String::new(alloc)),
        End::Blame(k) => blame_line(alloc, sites.get(k as usize)),
        End::ZeroDivision(k) => error_line(alloc, ": division by zero", sites.get(k as usize)),
        End::Overflow(k) => error_line(alloc, ": overflow", sites.get(k as usize)),
        End::Unbound(k) => error_line(alloc, ": unbound name", sites.get(k as usize)),
        End::Fuel => String::from_str(alloc, "limit: fuel\n"),
        End::HeapFull => String::from_str(alloc, "limit: heap\n"),
        End::PrintFull => String::from_str(alloc, "limit: print\n"),
        End::ThreadLimit => String::from_str(alloc, "limit: threads\n"),
        End::DepthLimit => String::from_str(alloc, "limit: depth\n"),
    }
}

/// The err line of an end of a run of this program, with its line feed; `Done` alone has none.
pub fn end_line(alloc: Global, end: End, program: &Program) -> Result<Option<String>, AllocError>
    ensures { IfOk result (λ line. option_map string_bytes line ≡ end_line program.now.sites end) }
{
    if let End::Done = end {
        return Ok(None);
    }
    let line = end_text(alloc, program.sites.as_slice(), end)?;
    Ok(Some(line))
}

/// The status with which a run that came to this end ends: 0 for `Done`, 3 for a blame, 4 for an error of arithmetic or of an unbound name,
/// and 5 for a limit.
pub fn status_of(end: End) -> u8
    ensures { result ≡ status_of end }
{
    match end {
        End::Done => 0,
        End::Blame(_) => 3,
        End::ZeroDivision(_) => 4,
        End::Overflow(_) => 4,
        End::Unbound(_) => 4,
        End::Fuel => 5,
        End::HeapFull => 5,
        End::PrintFull => 5,
        End::ThreadLimit => 5,
        End::DepthLimit => 5,
    }
}
