//! Laws of calls in well-typed packages that become literals.

ghost use Rattle.standing_files.specs.UseLaws as law;

/// In well-typed packages a use that becomes a literal is linked, as the laws of such uses ask, and the
/// packages are translated, as those of ranks ask: all names in the files of marks are declared.
pub fn typed_uses_are_linked()
    ensures linked { law.TypedUsesAreLinked }
    ensures translated { law.TypedPackagesAreTranslated }
{}

/// A call of a function, plainly or by an import's name, is typed as the literal that it becomes, and
/// means it under free prices; deferred, it means the deferred literal.
pub fn calls_mean_literals()
    ensures typed { law.CallsAreTypedAsLiterals }
    ensures meaning { law.CallsMeanLiterals }
    ensures deferred { law.DeferredCallsMeanLiterals }
{}

/// A call of a method has the receiver's argument as the first one of the literal that it becomes; it is
/// typed as the literal, and means it under free prices; deferred, it means the deferred literal.
pub fn method_calls_mean_literals()
    ensures form { law.MethodFormsBeginWithReceivers }
    ensures typed { law.MethodCallsAreTypedAsLiterals }
    ensures meaning { law.MethodCallsMeanLiterals }
    ensures deferred { law.DeferredMethodCallsMeanLiterals }
{}

/// Each exported field is seen around each part of a function that is called. Each package that the
/// function names is among those for which its literal asks a name, and has one that serves, where the
/// literal needs no import that isn't there.
pub fn called_packages_serve()
    ensures functions { law.CalledFunctionsAreOpen }
    ensures needed { law.PackagesOfCallsAreNeeded }
    ensures served { law.PackagesOfCallsServe }
    ensures own { law.OwnPackagesOfCallsServe }
{}

/// A call that becomes a literal and needs no import that isn't there is typed as the literal, and means
/// it under free prices; deferred, it means the deferred literal.
pub fn served_calls_mean_literals()
    ensures typed { law.ServedCallsAreTypedAsLiterals }
    ensures meaning { law.ServedCallsMeanLiterals }
    ensures deferred { law.ServedDeferredCallsMeanLiterals }
{}

/// A call whose literal adds imports by new names is typed in its file as the literal is in the file with
/// these imports, and means it under free prices; deferred, it means the deferred literal.
pub fn calls_mean_literals_with_imports()
    ensures typed { law.CallsAreTypedAsLiteralsAfter }
    ensures meaning { law.CallsMeanLiteralsAfter }
    ensures deferred { law.DeferredCallsMeanLiteralsAfter }
{}

/// The program of well-typed packages is ranked by the marked functions that lie on no cycle, and under
/// free prices a call of one of these is its called literal, where no marked function declares a group of
/// constants.
pub fn typed_packages_are_ranked()
    ensures calls { law.CodeOfPackagesCallsWhatIsLedTo }
    ensures ranked { law.TypedPackagesAreRanked }
    ensures meaning { law.FreeCallsMeanLiterals }
{}

/// So where a run makes a literal of a call, the call means this literal under free prices: the function
/// is free, since the use has no obstacle. Where no import is added, of names nothing is asked.
pub fn uses_mean_literals()
    ensures served { law.UsesMeanLiterals }
    ensures home { law.ServedUsesMeanLiterals }
{}
