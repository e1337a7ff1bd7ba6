//! The versions of the game file.

/// A version of the game file. Version 2 states bonuses.
#[derive(Clone, Copy)]
pub enum Version {
    One,
    Two,
}

impl Version {
    ghost use Rattle.std.specs.Prelude.{◌≡◌};
    ghost use Rattle.gs_file.specs.JsonForm.{version_number};

    /// Returns the number of the version.
    pub fn number(self) -> u8
        ensures { result ≡ version_number self }
    {
        match self {
            Version::One => 1,
            Version::Two => 2,
        }
    }
}
