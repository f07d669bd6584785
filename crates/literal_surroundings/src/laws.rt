//! Laws of what is around a call that becomes its literal.

ghost use Rattle.literal_surroundings.specs.Laws as law;

/// In a body in which a call stands once, where a form may stand for it, a call with the same facts to the rules
/// of typing leaves what is around it: what is called there is the use or has not its span, what stands before
/// the dot of a method has the type that it had, and statements declare what they declared.
pub fn calls_with_facts_leave_what_is_around()
    ensures { law.CallsWithFactsLeaveWhatIsAround }
{}

/// So a step that puts a literal in the place of its call, in the body of a function of well-typed packages,
/// leaves what is around the call, be it before the dot of what is called, or among the values of names that are
/// declared. It is a step as literal_cycles asks for.
pub fn literals_leave_what_is_around()
    ensures stay { law.LiteralsLeaveWhatIsAround }
    ensures puts { law.LiteralsInBodiesArePut }
{}

/// So such a step of linked packages that settles its file keeps which marked functions lie on a cycle, where the
/// files of the program read from their texts. Nothing is asked of what is around the call.
pub fn literals_in_bodies_keep_cycles()
    ensures { law.LiteralsInBodiesKeepCycles }
{}
