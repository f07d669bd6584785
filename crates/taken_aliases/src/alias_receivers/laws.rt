//! Laws of receivers whose types are named by aliases.

ghost use Rattle.taken_aliases.specs.AliasReceivers.Laws.{AliasesNameReceivers, ReceiverStepsMeanTheSame};
ghost use Rattle.taken_aliases.specs.AliasReceivers.Laws.{ReceiverUsesMeanTheSame, ReceiverUsesSwap};
ghost use Rattle.taken_aliases.specs.AliasReceivers.Laws.{RenamedReceiversMeanTheSame, RenamedReceiversStand};

/// The name of an alias and the name that it is declared as mean one type as the type of a receiver,
/// once it is known which types are refused.
pub fn aliases_name_receivers()
    ensures { AliasesNameReceivers }
{}

/// Programs that are alike but for such names of receivers' types declare the same and are typed alike
/// beside all further packages (`in_place`); so packages that are so mean the same, and their imports
/// are right (`packages`).
pub fn renamed_receivers_mean_the_same()
    ensures in_place { RenamedReceiversStand }
    ensures packages { RenamedReceiversMeanTheSame }
{}

/// A step that writes such a name in the place of an alias that is the type of a method's receiver
/// leaves packages that are well typed with all further packages with which those before are, and mean
/// what those do.
pub fn receiver_steps_mean_the_same()
    ensures { ReceiverStepsMeanTheSame }
{}

/// So it is of each such use of an alias of a name, from the use and its mark (`swaps`): the packages
/// after the step mean what those before do (`meaning`).
pub fn receiver_uses_mean_the_same()
    ensures swaps { ReceiverUsesSwap }
    ensures meaning { ReceiverUsesMeanTheSame }
{}
