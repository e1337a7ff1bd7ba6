//! The commands by their names.

ghost use Rattle.std.specs.{Prelude.{◌≡◌, find}, Str.{bytes_eq}};
ghost use Rattle.gs_words.specs.Commands.{command_of, command_word};

/// A command of the program.
#[derive(Clone, Copy)]
pub enum CommandName {
    Shrink,
    Check,
    Solve,
    Play,
    Evaluate,
    Query,
    Make,
    Upgrade,
    Judge,
    Duel,
    Certify,
    Verify,
    Path,
}

/// All commands, in the order of the usage line.
pub(crate) const COMMANDS: [CommandName; 13] = [
    CommandName::Shrink,
    CommandName::Check,
    CommandName::Solve,
    CommandName::Play,
    CommandName::Evaluate,
    CommandName::Query,
    CommandName::Make,
    CommandName::Upgrade,
    CommandName::Judge,
    CommandName::Duel,
    CommandName::Certify,
    CommandName::Verify,
    CommandName::Path,
];

impl CommandName {
    /// Returns the word that names the command.
    pub(crate) fn word(self) -> &'static str
        ensures { result.now ≡ command_word self }
    {
        match self {
            CommandName::Shrink => "shrink",
            CommandName::Check => "check",
            CommandName::Solve => "solve",
            CommandName::Play => "play",
            CommandName::Evaluate => "evaluate",
            CommandName::Query => "query",
            CommandName::Make => "make",
            CommandName::Upgrade => "upgrade",
            CommandName::Judge => "judge",
            CommandName::Duel => "duel",
            CommandName::Certify => "certify",
            CommandName::Verify => "verify",
            CommandName::Path => "path",
        }
    }
}

// Returns the first of the commands that the word names.
fn named_in(names: &[CommandName], word: &str) -> Option<CommandName>
    ensures { result ≡ find (λ c. bytes_eq word.now (command_word c)) names.now }
{
    for name in names {
        if word == name.word() {
            return Some(*name);
        }
    }
    None
}

/// Returns the command that the word names.
pub(crate) fn command_named(word: &str) -> Option<CommandName>
    ensures { result ≡ command_of word.now }
{
    named_in(&COMMANDS, word)
}
