ghost use Rattle.semantics.specs.SmallTables.{SmallTables};
ghost use Rattle.semantics.specs.Theorems.{ByTheLetter, TwoFamilies};

// Theorems about the definitions that belong to no call: each function says only that its theorem is proved.

// Eleven small programs have the accounts that are expected of them.
fn small_tables()
    ensures { SmallTables }
{}

// House and bench are families: the order of weights never matters, and a kind that they lack is worth nothing.
fn two_families()
    ensures { TwoFamilies }
{}

// That the third step asks for an open statement, or does not, comes to the same.
fn steps_by_the_letter()
    ensures { ByTheLetter }
{}
