//! What kept findings say.

ghost use Rattle.kept_findings.specs.Laws as law;

/// By a table of types, the finding that is kept at a place is what is found there, and nothing is kept where nothing
/// is found. The places are those of the findings.
pub fn kept_findings_are_facts()
    ensures found { law.KeptAreFacts }
    ensures places { law.PlacesAreKept }
{}
