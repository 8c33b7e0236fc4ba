//! Laws of the definitions: each function is its contract alone.

ghost use Rattle.std.specs.Prelude.{◌≡◌, Ok, length};
ghost use Rattle.replay_files.specs.File.{ReplayContent, content_of};
ghost use Rattle.replay_files.specs.Spelling.{IsContent, spelling};
ghost use Rattle.replay_files.specs.declared.grammar.TheConstants.{DEATH_STOPS, ENDINGS, KEYWORDS, KINDS};
ghost use Rattle.replay_files.specs.declared.grammar.TheConstants.{NUMBERED_STOPS, PLAIN_STOPS};

/// Rows and commands that are spelled as a file are read back from it, each in its place.
pub fn what_is_spelled_is_read()
    ensures { (content : ReplayContent) → IsContent content → content_of (spelling content) ≡ Ok content }
{}

/// How many words each table has. The words that a file can spell are read back from it, so there are no others.
pub fn words_are_counted()
    ensures lines { length KEYWORDS ≡ 6 }
    ensures stops { length PLAIN_STOPS ≡ 3 }
    ensures numbered { length NUMBERED_STOPS ≡ 5 }
    ensures death_stops { length DEATH_STOPS ≡ 1 }
    ensures kinds { length KINDS ≡ 2 }
    ensures endings { length ENDINGS ≡ 2 }
{}
