ghost use Rattle.narrowing.specs.Unfounded.{ExternalSupport};

// Where a set of statements has one in an answer set, some rule supports one from outside the set.
fn external_support()
    ensures { ExternalSupport }
{}
