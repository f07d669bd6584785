//! Laws of the nodes of files.

ghost use Rattle.put_nodes.specs.Laws.{NamesArePut, PartsAreNodes};
ghost use Rattle.run_rules.specs.Run.{here_of};
ghost use Rattle.run_rules.specs.Steps.{At};

/// Each expression that run_rules' walk lists for a declaration of a file that reads from its text is a node of the
/// file as splice_laws has it: an operand of its slot's level, what is called, or a deferred call. A name on the left
/// of `:=` that its block has declared already is none.
pub fn parts_are_nodes()
    ensures { PartsAreNodes At here_of }
{}

/// A name is put in the place of a name by the edit that writes it there, as splice_laws asks. Where the old name has
/// the name of a package before it, no parenthesis may stand around that.
pub fn names_are_put()
    ensures { NamesArePut At here_of }
{}
