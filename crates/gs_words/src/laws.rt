//! The law of words that ask for a task.

ghost use Rattle.std.specs.{Prelude.{◌≡◌, ℕ, [], ◌∷◌, List, Some, true, false, codes}, List.{All}, Str.{IsUtf8}};
ghost use Rattle.gs_words.specs.{Plain.{AskFor}, Requests.{request_of}};
ghost use Rattle.gs_words.specs.{Tasks.{Task, of_game}, declared.request.Grouping.TheVariants.{Single}, declared.request.OfGame.TheVariants.{Check}};

/// Words are a request exactly if they are a command and options of it, as `AskFor` says.
///
/// The options stand in any order, each at most once: a flag, `--name value` or `--name=value`. A
/// last word `--` may follow.
pub fn plain_words_are_read()
    ensures read { (words : List (List ℕ)) (task : Task) → AskFor words task → request_of words ≡ Some task }
    ensures every { (words : List (List ℕ)) (task : Task) → All IsUtf8 words → request_of words ≡ Some task → AskFor words task }
    ensures example { request_of (codes "check" ∷ codes "--summary" ∷ codes "--classes" ∷ codes "raw" ∷ []) ≡ Some (of_game (Check Single true)) }
    ensures joined_example { request_of (codes "check" ∷ codes "--classes=raw" ∷ codes "--" ∷ []) ≡ Some (of_game (Check Single false)) }
{}
