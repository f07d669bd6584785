//! The law of where parts come from.

ghost use Rattle.programs.specs.PartOrigins.Laws.{PartsComeFromThemselves};

/// In a file as read each part comes from where it stands.
pub fn parts_come_from_themselves()
    ensures { PartsComeFromThemselves }
{}
