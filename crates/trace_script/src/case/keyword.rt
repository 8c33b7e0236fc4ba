//! The first word of a line of a case file, and where in the file it may come.

ghost use Rattle.std.specs.Prelude.{◌≡◌};
ghost use Rattle.trace_script.specs.CaseLine.{in_place, keyword_at, may_come};

use text_lines::{LineFault, keyword};

/// Where in a case file a line is.
#[derive(Clone, Copy, Debug, PartialEq, Eq)]
pub(crate) enum Place {
    /// Outside of blocks.
    Outside,
    /// After a `tracee` or `exec` line, with only lines of its image between.
    Loading,
    /// After another step of a block.
    Stepping,
}

/// The first word of a line.
#[derive(Clone, Copy, Debug, PartialEq, Eq)]
pub(crate) enum Keyword {
    Tracee,
    Page,
    Data,
    At,
    Call,
    Fork,
    Thread,
    Exec,
    Signal,
    Exit,
    End,
}

/// The first words of lines. Most lines are calls, so their word is compared first.
const KEYWORDS: [(&str, Keyword); 11] = [
    ("call", Keyword::Call),
    ("tracee", Keyword::Tracee),
    ("page", Keyword::Page),
    ("data", Keyword::Data),
    ("at", Keyword::At),
    ("fork", Keyword::Fork),
    ("thread", Keyword::Thread),
    ("exec", Keyword::Exec),
    ("signal", Keyword::Signal),
    ("exit", Keyword::Exit),
    ("end", Keyword::End),
];

/// The keyword that a word is. UnknownWord where it is none, or one that may not come at this place.
pub(crate) fn keyword_at(place: Place, word: &[u8]) -> Result<Keyword, LineFault>
    ensures { result ≡ keyword_at place word.now }
{
    in_place(place, keyword(&KEYWORDS, word)?)
}

fn in_place(place: Place, keyword: Keyword) -> Result<Keyword, LineFault>
    ensures { result ≡ in_place place keyword }
{
    if may_come(place, keyword) {
        Ok(keyword)
    } else {
        Err(LineFault::UnknownWord)
    }
}

/// Whether a line of this keyword may come at a place.
fn may_come(place: Place, keyword: Keyword) -> bool
    ensures { result ≡ may_come place keyword }
{
    match place {
        Place::Outside => keyword == Keyword::Tracee,
        Place::Loading => keyword != Keyword::Tracee,
        Place::Stepping => match keyword {
            Keyword::Tracee => false,
            Keyword::Page => false,
            Keyword::Data => false,
            Keyword::At => false,
            _ => true,
        },
    }
}
