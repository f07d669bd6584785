//! Laws of typing beside packages that aren't imported.

ghost use Rattle.imported_typing.specs.Laws as law;

/// Typing needs of a world what is reached alone: at a place where names mean what is within reach,
/// all is typed alike in worlds in which the same is found of that.
pub fn typing_needs_what_it_reaches()
    ensures operands { law.OperandsReachedAlone }
    ensures within { law.TypesStayWithinReach }
    ensures places { law.PlacesReachedAlone }
    ensures uses { law.UsesReachedAlone }
    ensures declarations { law.DeclarationsReachedAlone }
    ensures bodies { law.BodiesReachedAlone }
    ensures records { law.RecordsReachedAlone }
{}

/// So do the headers of declarations: what they declare, whether their bodies are typed, and which
/// names they use.
pub fn headers_need_what_they_reach()
    ensures declared { law.HeadersReachedAlone }
    ensures bodies { law.HeaderBodiesReachedAlone }
    ensures uses { law.HeaderUsesReachedAlone }
{}

/// Further packages that none of a program's packages imports change neither what those declare nor
/// what is refused of them, unless defined types are declared as one another in a circle, as in no
/// well-typed program; so the packages are well typed where they are beside such packages.
pub fn further_packages_change_nothing()
    ensures declared { law.DeclareTheSameBesideOthers }
    ensures refused { law.RefusedTheSameBesideOthers }
    ensures ended { law.ChainsEndWhereTyped }
    ensures alone { law.WellTypedAlone }
{}

/// In dependency order the first packages, however many, are such packages, and those behind them
/// are such further ones: so they declare the same alone and in the whole program, where they are
/// well typed, as they are where the whole program is.
pub fn first_packages_stand_alone()
    ensures themselves { law.FirstImportThemselves }
    ensures others { law.LaterAreOthers }
    ensures declared { law.FirstDeclareTheSame }
    ensures typed { law.FirstAreTyped }
{}
