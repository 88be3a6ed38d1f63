ghost use Rattle.semantics.specs.FullMarkings.{row_of};
ghost use Rattle.semantics.specs.Rows.{how_many};
ghost use Rattle.std.specs.Prelude.{◌≡◌};

use marking::Marking;

// An account: every statement marked in or out, and how many are in.
#[derive(Clone, Copy)]
pub struct Account {
    pub marks: Marking,
    pub statements_in: u16,
}

impl From<Marking> for Account {
    ghost from_gives = { λ marks account. (account.marks ≡ marks) × (account.statements_in ≡ how_many (row_of marks)) };

    fn from(marks: Marking) -> Account {
        Account {
            marks,
            statements_in: marks.in_count(),
        }
    }
}
