//! The ids of threads, thread groups and process groups as words of a line.

ghost use Rattle.std.specs.Prelude.{◌≡◌};
ghost use Rattle.trace_script.specs.RowWords.{id_of, row_of_words};

use stop_history::{LAST_ID, Row};
use text_lines::{LineFault, number_between};

/// The id that a word writes, from 1 to the last one. BadNumber where it is none.
pub fn id(word: &[u8]) -> Result<u32, LineFault>
    ensures { result ≡ id_of word.now }
{
    Ok(number_between(1, u64::from(LAST_ID), word)? as u32)
}

/// The row that the words TID TGID PGID PARENT write, where PARENT is 0 for a root. BadNumber where one of them is no
/// id. Whether a roster takes the row is for the roster.
pub fn row_of_words(tid: &[u8], tgid: &[u8], pgid: &[u8], parent: &[u8]) -> Result<Row, LineFault>
    ensures { result ≡ row_of_words tid.now tgid.now pgid.now parent.now }
{
    let tid = id(tid)?;
    let tgid = id(tgid)?;
    let pgid = id(pgid)?;
    let parent = number_between(0, u64::from(LAST_ID), parent)? as u32;
    Ok(Row {
        tid,
        tgid,
        pgid,
        parent,
    })
}
