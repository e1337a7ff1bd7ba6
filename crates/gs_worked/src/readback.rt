//! Made game files are read back.

ghost use Rattle.gs_worked.specs.MadeGames.{MadeFilesAreReadBack};

/// A made game file is read back as the game that its words ask for, if that game keeps the rules.
pub fn made_files_are_read_back()
    ensures { MadeFilesAreReadBack }
{}
