ghost use Rattle.family.specs.Readings.{AllStand, Judges, NoneStands, Ordered, SaysCertain, SaysImpossible, Within, nothing_or, only_numbers};
ghost use Rattle.semantics.specs.Programs.{stands};
ghost use Rattle.std.specs.Prelude.{◌≡◌, not, ℤ, ◌≤ℤ◌, ◌↔◌, IsTrue};

use semantics::Relation;

// The whole numbers from the least to the greatest. Stays a struct: the library's ranges are not `Copy`, and a reading is.
#[derive(Clone, Copy, PartialEq, Eq, Debug)]
pub struct Span {
    pub least: i64,
    pub greatest: i64,
}

// What the bags of a tally come to: whether some bag is worth nothing, and the least and the greatest number that some
// bag is worth, where one is worth a number. The flag does not say whether there are numbers: some bags may be worth
// nothing and others a number.
#[derive(Clone, Copy, PartialEq, Eq, Debug)]
pub struct Reading {
    pub nothing: bool,
    pub numbers: Option<Span>,
}

// What is known of one or of several aggregates under a marking. Stays an enum of three: an `Option<bool>` would say less
// by its words.
#[derive(Clone, Copy, PartialEq, Eq, Debug)]
pub enum Verdict {
    Certain,
    Impossible,
    Neither,
}

impl Span {
    // Whether the number lies from the least to the greatest. Stays two comparisons, which the check proves by itself: a
    // range's `contains` is no plainer, and its proof has to be written.
    pub fn has(self, z: i64) -> bool
        ensures { IsTrue result ↔ Within self z }
    {
        self.least <= z && z <= self.greatest
    }

    // Whether every number from the least to the greatest stands in the relation to the bound.
    pub fn all_stand(self, relation: Relation, bound: i64) -> bool
        ensures { self.least ≤ℤ self.greatest → (IsTrue result ↔ AllStand self relation bound) }
    {
        match relation {
            Relation::Less => self.greatest < bound,
            Relation::AtMost => self.greatest <= bound,
            Relation::Equal => self.least == bound && self.greatest == bound,
            Relation::Unequal => !self.has(bound),
            Relation::AtLeast => self.least >= bound,
            Relation::More => self.least > bound,
        }
    }

    // Whether none of them does.
    pub fn none_stands(self, relation: Relation, bound: i64) -> bool
        ensures { self.least ≤ℤ self.greatest → (IsTrue result ↔ NoneStands self relation bound) }
    {
        self.all_stand(opposite(relation), bound)
    }
}

// The relation in which a number stands to a bound where it does not stand in this one.
fn opposite(relation: Relation) -> Relation
    ensures { (z b : ℤ) → stands result z b ≡ not (stands relation z b) }
{
    match relation {
        Relation::Less => Relation::AtLeast,
        Relation::AtMost => Relation::More,
        Relation::Equal => Relation::Unequal,
        Relation::Unequal => Relation::Equal,
        Relation::AtLeast => Relation::Less,
        Relation::More => Relation::AtMost,
    }
}

impl Reading {
    // Every bag is worth a number, the least and the greatest among them.
    pub fn only_numbers(span: Span) -> Reading
        ensures { result ≡ only_numbers span }
    {
        Reading {
            nothing: false,
            numbers: Some(span),
        }
    }

    // Some bag is worth nothing, and others a number where there is one.
    pub fn nothing_or(numbers: Option<Span>) -> Reading
        ensures { result ≡ nothing_or numbers }
    {
        Reading {
            nothing: true,
            numbers,
        }
    }

    // Certain where a number is reached, nothing is not, and every number from the least to the greatest stands in the
    // relation to the bound; impossible where none does, or no number is reached.
    pub fn judge(self, relation: Relation, bound: i64) -> Verdict
        ensures { Ordered self
            → Judges result (SaysCertain self relation bound) (SaysImpossible self relation bound) }
    {
        match self.numbers {
            None => Verdict::Impossible,
            Some(span) => {
                if span.none_stands(relation, bound) {
                    Verdict::Impossible
                } else if !self.nothing && span.all_stand(relation, bound) {
                    Verdict::Certain
                } else {
                    Verdict::Neither
                }
            }
        }
    }
}
