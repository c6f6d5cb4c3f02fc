//! Laws: each object has the deepest kind that is demanded of it, and no order of the sentences changes it.
ghost use Rattle.i7_kinds.specs.KindsMeant.{KindsAreMeant, KindsAreOne, KindsLieAsClaimed, OrderIsNothingToKinds, OrderIsNothingToObjects};

/// The kinds of the tale of an accepted source are the built-in ones and those that its sentences declare, and lie under
/// each other as these say.
pub fn kinds_lie_as_claimed()
    ensures { KindsLieAsClaimed }
{}

/// Each object of an accepted source has the deepest kind that is demanded of its name; where nothing deeper than a thing
/// is, it is a container if something is in it, and else a thing.
pub fn kinds_are_the_deepest_demanded()
    ensures { KindsAreMeant }
{}

/// No other kind is meant for a name.
pub fn kinds_meant_are_one()
    ensures { KindsAreOne }
{}

/// Two accepted sources that assert the same, in whatever order, have objects of the same names.
pub fn order_of_sentences_is_nothing_to_objects()
    ensures { OrderIsNothingToObjects }
{}

/// Two accepted sources that assert the same, in whatever order, give objects of one name kinds of one name.
pub fn order_of_sentences_is_nothing_to_kinds()
    ensures { OrderIsNothingToKinds }
{}
