//! Laws of the definitions: each function is its contract alone.

ghost use Rattle.std.specs.Prelude.{◌≡◌, ◌^◌, Ok};
ghost use Rattle.litmus_files.specs.declared.grammar.TheConstants.{LONGEST_NAME, MOST_REPEATS};
ghost use Rattle.litmus_files.specs.declared.draft.TheConstants.{MOST_COMMANDS, MOST_THREADS};
ghost use Rattle.litmus_files.specs.LitmusFile.{LitmusContent, litmus_content_of};
ghost use Rattle.litmus_files.specs.LitmusSpelling.{IsSpelledLitmus, litmus_spelling};

/// How many threads and commands a litmus file has at most, how many bytes a thread's name has, and how many times a
/// repeat is done.
pub fn litmus_numbers_are_fixed()
    ensures threads { MOST_THREADS ≡ 64 }
    ensures commands { MOST_COMMANDS ≡ 2 ^ 12 }
    ensures name { LONGEST_NAME ≡ 32 }
    ensures repeats { MOST_REPEATS ≡ 64 }
{}

/// A program without repeats, replies and conditions that is spelled as a litmus file is read back from it.
pub fn what_a_litmus_file_spells_is_read()
    ensures { (content : LitmusContent) → IsSpelledLitmus content →
        litmus_content_of (litmus_spelling content) ≡ Ok content }
{}
