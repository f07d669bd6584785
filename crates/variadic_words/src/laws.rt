//! The law of files without variadic syntax.

ghost use Rattle.variadic_words.specs.Laws.{FilesWithoutDots};

/// In a file without the word `...` no call hands on a slice for its last arguments.
pub fn files_without_dots_hand_on_no_slice()
    ensures { FilesWithoutDots }
{}
