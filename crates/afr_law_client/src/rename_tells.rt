//! What the lines of a work tell of the machine of a rename: its two walks, the making of the new name, and the removal of the
//! old one.

ghost use Rattle.afr_law_client.specs.Rename.RenameLaws.{RenameAbout, RenameBegins, RenameBegun, RenameBlames, RenameEnds, RenameKeepsName, RenameTellsMore};

/// The lines of a rename show where it stands, from its first look to its last unlock, whatever was told: each part as the
/// lines of a command with one path do.
pub fn a_rename_tells_its_lines()
    ensures begins { RenameBegins }
    ensures more { RenameTellsMore }
    ensures begun { RenameBegun }
    ensures about { RenameAbout }
    ensures blamed { RenameBlames }
    ensures ends { RenameEnds }
    ensures names { RenameKeepsName }
{}
