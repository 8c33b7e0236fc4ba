//! Laws of the definitions: each function is its contract alone.

ghost use Rattle.std.specs.Prelude.{◌≡◌, ◌∷◌, ◌^◌, [], ℕ, List, codes};
ghost use Rattle.tracer_cli.specs.Arguments.{AreExploreOptionsOf, AreOptionsOf, AskExplore, AskReplay, AskRun};
ghost use Rattle.tracer_cli.specs.Arguments.{AskText, Contradict, IsExploredWhole, IsFollowed};
ghost use Rattle.tracer_cli.specs.declared.arguments.ExploreOptions.{ExploreOptions};
ghost use Rattle.tracer_cli.specs.declared.arguments.RunOptions.{RunOptions};
ghost use Rattle.tracer_cli.specs.declared.arguments.TheConstants.{MOST_PLACES, MOST_SHOWN};

/// The greatest limit of strings and arrays that `-s` can give, and the greatest number of `--budget` and `--replay`.
pub fn numbers_are_fixed()
    ensures shown { MOST_SHOWN ≡ 2 ^ 16 }
    ensures places { MOST_PLACES ≡ 10 ^ 8 }
{}

/// What the shortest words ask for, the program's name first: `replay` for a replay of standard input, `run -f` for a
/// run of it that follows children, `explore` for all outcomes of it, with the defaults of all other options.
pub fn plain_words_are_taken()
    ensures replay { (name : List ℕ) → AskReplay (name ∷ codes "replay" ∷ []) }
    ensures run { (name : List ℕ) → AskRun (name ∷ codes "run" ∷ codes "-f" ∷ []) }
    ensures options { (name : List ℕ) (options : RunOptions) →
        AreOptionsOf (name ∷ codes "run" ∷ codes "-f" ∷ []) options → IsFollowed options }
    ensures explore { (name : List ℕ) → AskExplore (name ∷ codes "explore" ∷ []) }
    ensures whole { (name : List ℕ) (options : ExploreOptions) →
        AreExploreOptionsOf (name ∷ codes "explore" ∷ []) options → IsExploredWhole options }
{}

/// What other short words are, the program's name first: `--help` and `--version` ask for a text, and `--ends` beside
/// `--replay 1` contradicts it.
pub fn plain_words_show_or_contradict()
    ensures help { (name : List ℕ) → AskText (name ∷ codes "--help" ∷ []) }
    ensures version { (name : List ℕ) → AskText (name ∷ codes "--version" ∷ []) }
    ensures contradictory { (name : List ℕ) →
        Contradict (name ∷ codes "explore" ∷ codes "--ends" ∷ codes "--replay" ∷ codes "1" ∷ []) }
{}
