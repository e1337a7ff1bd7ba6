//! The forms in which a game is described.

use crate::version::Version;

/// A form in which a game is described: a game file in the version that it states, or a JSON value in a given version.
#[derive(Clone, Copy)]
pub enum Form {
    File,
    Json(Version),
}

impl Form {
    ghost use Rattle.std.specs.Prelude.{◌≡◌};
    ghost use Rattle.gs_file.specs.Keys.{rounds_key};

    /// Returns the key of the rounds.
    pub fn rounds_key(self) -> &'static str
        ensures { result.now ≡ rounds_key self }
    {
        match self {
            Form::File => "round",
            Form::Json(_) => "rounds",
        }
    }
}
