//! A law over the definitions: the contract of a function with no code, so that the gate proves it.
ghost use Rattle.arguments.specs.DinJob.{SetsLaw};

/// A cache of `din` that is asked for by its number of sets has the geometry of these sets.
/// Lemma: `SetsLaw.sets_law`.
pub fn sets_are()
    ensures { SetsLaw }
{}
