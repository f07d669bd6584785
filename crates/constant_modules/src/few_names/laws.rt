//! The laws of how few different names a step avoids.

ghost use Rattle.constant_modules.specs.FewNames.Laws as law;

/// In files that read from their texts, whatever they declare, the names that a step over a constant avoids stand among
/// few: each identifier of a file is the name of a token, of which a text has at most two for each byte (Go
/// specification, Tokens; Identifiers).
pub fn steps_avoid_few_names()
    ensures tokens { law.IdentifiersAreTokens }
    ensures few { law.SmallTextsTakeFewNames }
{}

/// So a step over a constant that is declared as a name, which writes its file, in linked packages and texts within the
/// limit of a run, keeps the names of imports that are looked up (order_cycles' `KeepsImportLookUps`), if no import
/// that goes has a name that stands beside (Go specification, Import declarations; Declarations and scope).
pub fn steps_keep_look_ups()
    ensures { law.ConstantStepsKeepLookUps }
{}
