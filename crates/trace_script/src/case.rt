//! Case files: the rows of a trace, and the script of each.
//!
//! A file is read line by line, without a copy of it. What lines say is `line`'s, what they make of what was read is
//! `draft`'s and `block`'s, and what is tested after the last line is `late`'s.

ghost use Rattle.std.specs.Prelude.{◌≡◌, ◌<◌, ◌^◌, All, IfErr, IfOk, Ok, Some, length, slice_get};
ghost use Rattle.text_lines.specs.Lines.{last_line};
ghost use Rattle.trace_script.specs.CaseFacts.{IsCase, IsScript};
ghost use Rattle.trace_script.specs.CaseFile.{case_of, lines_read};
ghost use Rattle.trace_script.specs.CaseFile as file;
ghost use Rattle.trace_script.specs.Draft.{reading_of};
ghost use Rattle.trace_script.specs.Kept.{script_of};
ghost use Rattle.trace_script.specs.Reading.{Refuses};

mod block;
mod call;
mod digits;
mod draft;
mod image;
mod keyword;
mod late;
mod line;
mod raw_line;
pub(crate) mod row_words;
mod signals;
mod words;

use crate::case::draft::{Draft, new_draft};
use crate::case::keyword::Place;
use crate::case::late::late_fault;
use crate::cause::{CaseError, Cause};
use crate::reading::read_file;
use crate::script::Script;
use std::alloc::{Allocator, Global};
use std::marker::Model;
use stop_history::Roster;
use text_lines::last_line;

/// A case: the rows of a trace, and in the same order the script of each.
#[derive(Drop)]
pub struct Case<A: Allocator = Global> {
    roster: Roster<A>,
    scripts: Vec<Script<A>, A>,
}

impl<A: Allocator> Model for Case<A> {
    ghost use Rattle.std.specs.Coded.{codes};
    ghost use Rattle.std.specs.Prelude.{map};
    ghost use Rattle.trace_pages.specs.FlatMemory.{flat_code};
    ghost use Rattle.trace_script.specs.CaseFacts.{IsCase};
    ghost use Rattle.trace_script.specs.CaseFile.{CaseContent};
    ghost use Rattle.trace_script.specs.Kept.{script_of};

    ghost Value = { CaseContent };

    ghost coded = { Prim.hlevel (codes, flat_code) };

    ghost view = { λ c. record { rows = c.roster; scripts = map script_of c.scripts.items } };

    ghost invariant = { λ c. IsCase (record { rows = c.roster; scripts = map script_of c.scripts.items }) };
}

impl<A: Allocator + Copy> Case<A> {
    /// The case of a file, or why the file is refused: its first faulty line, with the first cause of that line. Births
    /// and execs are tested after the last line, since they depend on rows that come later. Out of memory is reported
    /// on a line that has no fault and before which no line has one.
    pub fn read(alloc: A, text: &[u8]) -> Result<Case<A>, CaseError>
        ensures ok { IfOk result (λ case. case_of text.now ≡ Ok case) }
        ensures err { IfErr result (λ error.
            Refuses text.now error.cause error.line (lines_read text.now) (case_of text.now)) }
    {
        match read_file(new_draft(alloc), text) {
            Ok(draft) => finish(draft, text),
            Err(error) => Err(error),
        }
    }
}

impl<A: Allocator> Case<A> {
    /// The rows of all tracees.
    pub fn roster(&self) -> &Roster<A>
        ensures rows { result.now ≡ self.now.rows }
        ensures case { IsCase self.now }
    {
        &self.roster
    }

    /// The script of a row.
    pub fn script(&self, row: u32) -> &Script<A>
        requires { row < length self.now.rows }
        ensures script { slice_get self.now.scripts row ≡ Some (script_of result.now) }
        ensures known { IsScript self.now.rows row (script_of result.now) }
    {
        &self.scripts[row as usize]
    }
}

/// The case that was read, or the first fault that is found after the last line.
fn finish<A: Allocator>(draft: Draft<A>, text: &[u8]) -> Result<Case<A>, CaseError>
    requires size { length text.now < 2 ^ 32 }
    requires lines { lines_read text.now ≡ Ok (reading_of draft) }
    ensures ok { IfOk result (λ case. case_of text.now ≡ Ok case) }
    ensures err { IfErr result (λ error.
        Refuses text.now error.cause error.line (lines_read text.now) (case_of text.now)) }
{
    if let Some(error) = closing_fault(&draft, text) {
        return Err(error);
    }
    let Draft { rows, scripts, .. } = draft;
    Ok(Case {
        roster: rows,
        scripts,
    })
}

/// The first fault that is found after the last line.
fn closing_fault<A: Allocator>(draft: &Draft<A>, text: &[u8]) -> Option<CaseError>
    requires size { length text.now < 2 ^ 32 }
    requires late { All (λ l. l.row < length draft.now.rows) draft.now.late.items }
    ensures { result ≡ file.closing_fault (last_line text.now) (reading_of draft.now) }
{
    if draft.place != Place::Outside {
        return Some(CaseError {
            line: last_line(text),
            cause: Cause::NoEnd,
        });
    }
    late_fault(&draft.rows, draft.late.as_slice())
}
