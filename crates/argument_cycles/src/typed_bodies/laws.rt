//! Laws of bodies in well-typed packages.

ghost use Rattle.argument_cycles.specs.TypedBodies.Laws as law;

/// In well-typed packages a body declares variables and constants alone, and what is called is none: so what
/// it calls by a name alone is declared outside the function, and literals of functions have types, as it is
/// asked of callees. That a call of another package's member has a name for the package stays to be asked.
pub fn callees_are_meant()
    ensures { law.TypedBodiesAreMeant }
{}

/// So a step over an unobstructed call in such packages that puts a block, a tail or a literal, and adds no
/// import, keeps which marked functions lie on a cycle: asked is that packages have names, what methods and
/// arguments mean, and what is asked of what is around the use.
pub fn typed_steps_keep_cycles()
    ensures blocks_free { law.TypedBlocksAreFree }
    ensures literals_free { law.TypedLiteralsAreFree }
    ensures blocks { law.TypedBlockStepsKeepCycles }
    ensures literals { law.TypedLiteralStepsKeepCycles }
{}
