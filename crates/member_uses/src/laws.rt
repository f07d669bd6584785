//! The law of uses of marked constants.

ghost use Rattle.go_tree.specs.declared.spans.Span.{Span};
ghost use Rattle.run_rules.specs.Respanned.{file_with};
ghost use Rattle.run_rules.specs.Run.{here_of};
ghost use Rattle.run_rules.specs.Steps.{At};
ghost use Rattle.member_uses.specs.Laws.{MarkedMembersAreSites, MembersStay};

use crate::possible_uses::parts_are_among_all;

/// In a program whose marks are all of constants, the uses of marked members among the parts of a declaration are its
/// sites, in the same order, but that a key that names a field is none (Go specification, Composite literals). So no
/// more has to be known where no key is the name of a marked member.
/// So it is in a file as read (`read`), and in one as a run leaves it (`standing`).
pub fn marked_members_are_sites()
    ensures read { MarkedMembersAreSites Span (λ s. s) (λ f. f) }
    ensures standing { MarkedMembersAreSites At here_of (file_with here_of) }
{
    parts_are_among_all();
}

/// A declaration as a run leaves it names the same members as the one that the text has, whose nodes are plain spans.
pub fn members_stay()
    ensures { MembersStay At here_of }
{}
