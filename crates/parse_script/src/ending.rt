ghost use Rattle.std.specs.Prelude.{◌≡◌};
ghost use Rattle.parse_script.specs.computed.Endings.{mark_ending, ending_of};

use crate::stage::Ending;
use spelled_tokens::{Mark, What};

fn mark_ending(mark: Mark) -> Ending
    ensures { result ≡ mark_ending mark }
{
    match mark {
        Mark::Newline => Ending::Newline,
        Mark::Colon => Ending::Colon,
        Mark::Equals => Ending::Equals,
        Mark::Start => Ending::Start,
        Mark::Elif => Ending::Elif,
        Mark::Else => Ending::Else,
        _ => Ending::Other,
    }
}

/// What a token is to those that may stand before it.
pub fn ending_of(what: &What) -> Ending
    ensures { result ≡ ending_of what.now }
{
    match what {
        What::Comma => Ending::Comma,
        What::Close => Ending::Close,
        What::Dot => Ending::Dot,
        What::Mark(mark) => mark_ending(*mark),
        _ => Ending::Other,
    }
}
