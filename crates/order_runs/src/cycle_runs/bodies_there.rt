//! Laws of the calls of a body that is written elsewhere.

ghost use Rattle.order_runs.specs.CycleRuns.BodiesThere.Laws.{BodiesCallAlikeThere, LiteralsCallTheirBodies};

/// A body calls the same marked functions where it is written elsewhere, within further declarations,
/// where each of its identifiers means the same to typing and to calls; so a literal of a function that
/// is called there calls what its body does, and what its arguments do.
pub fn bodies_call_alike_there()
    ensures bodies { BodiesCallAlikeThere }
    ensures literals { LiteralsCallTheirBodies }
{}
