//! Imports removed and added.

ghost use Rattle.std.specs.Prelude.{◌≡◌, ℕ, List, [], ◌∷◌, ◌++◌, codes, encode_utf8_all};
ghost use Rattle.go_tree.specs.declared.tokens.Token.{Token};
ghost use Rattle.go_tree.specs.declared.tokens.Comment.{Comment};
ghost use Rattle.go_tree.specs.GoWords.Tokens.{TokensOf};
ghost use Rattle.go_read.specs.SpellsFiles.{SpellsFile};
ghost use Rattle.text_edits.specs.Applied.{applied};
ghost use Rattle.splice_laws.specs.Joints.{words_of};
ghost use Rattle.splice_laws.specs.Dots.{UndottedFile};
ghost use Rattle.splice_laws.specs.Splice.{ReadsAs};
ghost use Rattle.splice_laws.specs.ImportTexts.{NewSpec, IsNewSpec, a_piece, import_pieces, imports_first};
ghost use Rattle.go_tree.specs.declared.spans.Span.{Span};
ghost use Rattle.go_tree.specs.File.{ImportSpec, ImportDecl, File};
ghost use Rattle.go_tree.specs.FileBare.{bare_import_spec, bare_import_decl, bare_file};
ghost use Rattle.go_read.specs.SpellsTypes.{Lexemes};
ghost use Rattle.go_read.specs.SpellsFiles.{SpellsFront};
ghost use Rattle.go_read.specs.SpellsSpans.{span_to};
ghost use Rattle.go_read.specs.Bareness.{nowhere};
ghost use Rattle.splice_laws.specs.Imports.{FileWithout, FileWithSpec, with_import, Shortened, TakesImport, TakesSpec};

/// The tokens of a file without those of an import spec or declaration, and of the semicolon behind it, spell the
/// file without it; with those of one more before the first declaration, or at the end of the last group, they spell
/// the file with it (Go specification, Import declarations).
#[tactic(auto, using(crate::proofs::ImportLists::shortened, crate::proofs::ImportLists::takes_import, crate::proofs::ImportLists::takes_spec))]
pub fn imports_are_changed()
    ensures removed { (span : Span) (f g : File Span) (tokens : Lexemes) → SpellsFront span_to f tokens []
        → FileWithout span f g → Shortened span_to span tokens (λ others. SpellsFront nowhere (bare_file g) others
        []) }
    ensures added { (d : ImportDecl Span) (f : File Span) (tokens : Lexemes) → SpellsFront span_to f tokens []
        → TakesImport (bare_import_decl d) tokens (λ others. SpellsFront nowhere (bare_file (with_import d f)) others
        []) }
    ensures grown { (x : ImportSpec Span) (f g : File Span) (tokens : Lexemes) → SpellsFront span_to f tokens []
        → FileWithSpec x f g → TakesSpec (bare_import_spec x) tokens (λ others. SpellsFront nowhere (bare_file g)
        others []) }
{}

/// A text that reads as a file, with an import written on a line of its own directly before the first one, or behind
/// the package name and an empty line, reads as the file with that import before the others; and in that file too no
/// selector stands on an integer literal (Go specification, Import declarations, Semicolons).
#[tactic(auto, using(crate::proofs::ImportsWritten::written_first, crate::proofs::ImportsWritten::written_behind, crate::proofs::ImportsWritten::written_first_again, crate::proofs::ImportsWritten::written_behind_again))]
pub fn imports_are_written()
    ensures before_others { (text : List ℕ) (tokens : List Token) (comments : List Comment) (f : File Span)
        (d : ImportDecl Span) (ds : List (ImportDecl Span)) (x : NewSpec) → TokensOf text tokens comments
        → SpellsFile tokens f
        → UndottedFile (bare_file f) → f.imports ≡ d ∷ ds → IsNewSpec x
        → ReadsAs (applied text (record {
          span = record { start = d.span.start; end = d.span.start };
          text = encode_utf8_all (words_of (import_pieces x ++ a_piece (codes "\n") ∷ []));
        }
        ∷ [])) (imports_first x (bare_file f)) }
    ensures behind_package { (text : List ℕ) (tokens : List Token) (comments : List Comment) (f : File Span)
        (x : NewSpec) → TokensOf text tokens comments → SpellsFile tokens f → UndottedFile (bare_file f) → IsNewSpec x
        → ReadsAs (applied text (record {
          span = record
              { start = f.package_name.span.end; end = f.package_name.span.end };
          text = encode_utf8_all (words_of (a_piece (codes "\n\n") ∷ import_pieces x));
        }
        ∷ [])) (imports_first x (bare_file f)) }
    ensures undotted { (x : NewSpec) (f : File (Unit {0})) → UndottedFile f → UndottedFile (imports_first x f) }
    ensures before_others_again { (text : List ℕ) (f : File (Unit {0})) (r : ReadsAs text f) → UndottedFile f
        → (d : ImportDecl Span) (ds : List (ImportDecl Span)) (x : NewSpec) → r.file.imports ≡ d ∷ ds → IsNewSpec x
        → ReadsAs (applied text (record {
          span = record { start = d.span.start; end = d.span.start };
          text = encode_utf8_all (words_of (import_pieces x ++ a_piece (codes "\n") ∷ []));
        }
        ∷ [])) (imports_first x f) }
    ensures behind_package_again { (text : List ℕ) (f : File (Unit {0})) (r : ReadsAs text f) → UndottedFile f
        → (x : NewSpec) → IsNewSpec x
        → ReadsAs (applied text (record {
          span = record
              { start = r.file.package_name.span.end; end = r.file.package_name.span.end };
          text = encode_utf8_all (words_of (a_piece (codes "\n\n") ∷ import_pieces x));
        } ∷ [])) (imports_first x f) }
{}
