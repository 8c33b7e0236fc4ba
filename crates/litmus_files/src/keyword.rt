//! The first word of a line of a litmus file and where it may come, and the words in the place of a TID.

ghost use Rattle.std.specs.Prelude.{◌≡◌};
ghost use Rattle.litmus_files.specs.LitmusGrammar.{litmus_keyword_in, litmus_may_come};
ghost use Rattle.litmus_files.specs.LitmusReply.{is_any_word, is_group_word, is_it_word};

use crate::line::Within;
use stop_program::Voice;
use text_lines::{LineFault, keyword};

/// The first word of a command.
#[derive(Clone, Copy, Debug, PartialEq, Eq)]
pub(crate) enum CommandKeyword {
    Publish,
    Exit,
    State,
    Claim,
    Wait,
    Look,
    Peek,
    Resume,
    Kill,
    ExitGroup,
}

/// The first word of a line.
#[derive(Clone, Copy, Debug, PartialEq, Eq)]
pub(crate) enum LitmusKeyword {
    Row,
    Thread(Voice),
    Repeat,
    End,
    Only,
    Command(CommandKeyword),
}

/// The first words of lines.
const LITMUS_KEYWORDS: [(&str, LitmusKeyword); 16] = [
    ("row", LitmusKeyword::Row),
    ("thread", LitmusKeyword::Thread(Voice::Loud)),
    ("quiet", LitmusKeyword::Thread(Voice::Quiet)),
    ("repeat", LitmusKeyword::Repeat),
    ("end", LitmusKeyword::End),
    ("only", LitmusKeyword::Only),
    ("publish", LitmusKeyword::Command(CommandKeyword::Publish)),
    ("exit", LitmusKeyword::Command(CommandKeyword::Exit)),
    ("state", LitmusKeyword::Command(CommandKeyword::State)),
    ("claim", LitmusKeyword::Command(CommandKeyword::Claim)),
    ("wait", LitmusKeyword::Command(CommandKeyword::Wait)),
    ("look", LitmusKeyword::Command(CommandKeyword::Look)),
    ("peek", LitmusKeyword::Command(CommandKeyword::Peek)),
    ("resume", LitmusKeyword::Command(CommandKeyword::Resume)),
    ("kill", LitmusKeyword::Command(CommandKeyword::Kill)),
    (
        "exit_group",
        LitmusKeyword::Command(CommandKeyword::ExitGroup),
    ),
];

/// The keyword that a word is. UnknownWord where it is none, or one that may not come here.
pub(crate) fn keyword_in(within: Within, word: &[u8]) -> Result<LitmusKeyword, LineFault>
    ensures { result ≡ litmus_keyword_in within word.now }
{
    let keyword = keyword(&LITMUS_KEYWORDS, word)?;
    if may_come(keyword, within) {
        Ok(keyword)
    } else {
        Err(LineFault::UnknownWord)
    }
}

/// Whether a line of this keyword may come here. After the first condition nothing else comes. That a thread does not
/// begin in a repeat is for the file to refuse.
fn may_come(keyword: LitmusKeyword, within: Within) -> bool
    ensures { result ≡ litmus_may_come keyword within }
{
    match keyword {
        LitmusKeyword::Row => within == Within::Rows,
        LitmusKeyword::Thread(_) => within != Within::Conditions,
        LitmusKeyword::Repeat => within == Within::Thread,
        LitmusKeyword::End => within == Within::Repeat,
        LitmusKeyword::Only => within != Within::Repeat,
        LitmusKeyword::Command(_) => within == Within::Thread || within == Within::Repeat,
    }
}

/// Whether a command is about whichever tracee has something, by the word in the place of its TID.
pub(crate) fn is_any_word(word: &[u8]) -> bool
    ensures { result ≡ is_any_word word.now }
{
    word == b"any".as_slice()
}

/// Whether a command is about whichever tracee of a process group has something, by the word before the group's number.
pub(crate) fn is_group_word(word: &[u8]) -> bool
    ensures { result ≡ is_group_word word.now }
{
    word == b"group".as_slice()
}

/// Whether a command is about the tracee that its thread claimed last, by the word in the place of its TID.
pub(crate) fn is_it_word(word: &[u8]) -> bool
    ensures { result ≡ is_it_word word.now }
{
    word == b"it".as_slice()
}
