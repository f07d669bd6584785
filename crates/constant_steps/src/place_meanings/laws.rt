//! Laws of the places of parts and the scopes of files.

ghost use Rattle.go_tree.specs.declared.spans.Span.{Span};
ghost use Rattle.run_rules.specs.Respanned.{file_with};
ghost use Rattle.run_rules.specs.Run.{here_of};
ghost use Rattle.run_rules.specs.Steps.{At};
ghost use Rattle.constant_steps.specs.PlaceMeanings.Laws.{BlocksAreLocal, PlacesMeanAsTablesSay, ReadFilesHaveTheirNames};
ghost use Rattle.constant_steps.specs.PlaceMeanings.Laws.{StandingFilesHaveTheirNames};

/// Where a file reads from its text, the table of its scopes answers at each part of a declaration what names mean at
/// that part's place (Go specification, Declarations and scope).
/// So it is in a file as read (`read`), and in one as a run leaves it (`standing`). It asks what typing asks too: each
/// literal of a function has a type, and no `for` declares a variable behind its test.
pub fn places_mean_as_tables_say()
    ensures read { PlacesMeanAsTablesSay Span (λ s. s) (λ f. f) }
    ensures standing { PlacesMeanAsTablesSay At here_of (file_with here_of) }
{}

/// Where a file reads from its text, the names that the innermost block around a part has declared before it are local
/// at the part's place, in a file as read and in one as a run leaves it.
pub fn blocks_are_local()
    ensures read { BlocksAreLocal Span (λ s. s) (λ f. f) }
    ensures standing { BlocksAreLocal At here_of (file_with here_of) }
{}

/// The names that `names_of_file` tells of a file are those of its imports and of its package's block, in a file as read
/// and in one as a run leaves it.
pub fn files_have_their_names()
    ensures read { ReadFilesHaveTheirNames }
    ensures standing { StandingFilesHaveTheirNames }
{}
