//! Laws of written types as nodes of files.

ghost use Rattle.put_nodes.specs.TypeNodes.Laws.{TypeNamesAreNodes, TypeNamesArePut};
ghost use Rattle.run_rules.specs.Run.{here_of};

/// In a file that reads from its text each name of a type that a declaration writes, in signatures,
/// declared types, specs, types that are expressions and the types of composite literals, is a node,
/// which may be swapped for each type, once for all names that share it (`nodes`). Where such a name
/// is to become another name of a type, the edit that writes it lays it out in the place of that
/// node, as splice_laws asks (`put`).
pub fn type_names_are_put()
    ensures nodes { TypeNamesAreNodes here_of }
    ensures put { TypeNamesArePut here_of }
{}
