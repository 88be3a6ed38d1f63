ghost use Rattle.marking.specs.Sets.{FirstOf, Meets, OnlyOf, Within, contains, row};
ghost use Rattle.semantics.specs.Rows.{how_many};
ghost use Rattle.std.specs.Prelude.{◌≡◌, ◌==◌, ◌&&◌, ◌||◌, ◌↔◌, false, if◌then◌else◌, nat_lt, not, true, ℕ, IsFalse, IsTrue};

// How many statements a set may have: the format's limit.
pub(crate) const MOST: u16 = 128;

// A set of statements: the digit of each statement that is in it is one, so that a question of two whole sets is one
// instruction or two.
#[derive(Clone, Copy, PartialEq, Eq)]
pub struct Set {
    digits: u128,
}

impl Set {
    // The set of no statement.
    #[tactic(auto, using(crate::proofs::Digits::in_none))]
    pub fn none() -> Set
        ensures { (q : ℕ) → contains result q ≡ false }
    {
        Set { digits: 0 }
    }

    // The statements below one, of those that a set may have.
    #[tactic(auto, using(crate::proofs::Digits::in_below, crate::proofs::Digits::in_all))]
    pub fn below(statements: u16) -> Set
        ensures { (q : ℕ) → contains result q ≡ (nat_lt q statements && nat_lt q 128) }
    {
        if statements < MOST {
            Set {
                digits: (1 << statements) - 1,
            }
        } else {
            Set { digits: u128::MAX }
        }
    }

    // Whether a statement is in the set.
    #[tactic(auto, using(crate::proofs::Digits::has_digit, crate::proofs::Digits::none_past))]
    pub fn has(self, statement: u16) -> bool
        ensures { result ≡ contains self statement }
    {
        statement < MOST && (self.digits >> statement) & 1 == 1
    }

    // The set with a statement more; one that no set may have is not added.
    pub fn with(self, statement: u16) -> Set
        ensures { (q : ℕ) → contains result q ≡ (contains self q || (q == statement && nat_lt q 128)) }
    {
        self.union(Set::single(statement))
    }

    // The set of one statement, or of none where no set may have it.
    #[tactic(auto, using(crate::proofs::Digits::in_single))]
    pub fn single(statement: u16) -> Set
        ensures { (q : ℕ) → contains result q ≡ (q == statement && nat_lt q 128) }
    {
        if statement < MOST {
            Set {
                digits: 1 << statement,
            }
        } else {
            Set::none()
        }
    }

    // The set with a statement in it, or not in it; one that no set may have is not added.
    pub fn put(self, statement: u16, member: bool) -> Set
        ensures { (q : ℕ) → contains result q ≡ (if q == statement && nat_lt q 128 then member else contains self q) }
    {
        if member {
            self.with(statement)
        } else {
            self.without(Set::single(statement))
        }
    }

    // The statements that are in either set.
    #[tactic(auto, using(crate::proofs::Digits::in_union))]
    pub fn union(self, other: Set) -> Set
        ensures { (q : ℕ) → contains result q ≡ (contains self q || contains other q) }
    {
        Set {
            digits: self.digits | other.digits,
        }
    }

    // The statements that are in both sets.
    #[tactic(auto, using(crate::proofs::Digits::in_common))]
    pub fn common(self, other: Set) -> Set
        ensures { (q : ℕ) → contains result q ≡ (contains self q && contains other q) }
    {
        Set {
            digits: self.digits & other.digits,
        }
    }

    // The statements that are in this set and not in the other.
    #[tactic(auto, using(crate::proofs::Digits::in_without))]
    pub fn without(self, other: Set) -> Set
        ensures { (q : ℕ) → contains result q ≡ (contains self q && not (contains other q)) }
    {
        Set {
            digits: self.digits & !other.digits,
        }
    }

    // Whether no statement is in the set.
    #[tactic(auto, using(crate::proofs::Digits::empty_digits, crate::proofs::Digits::no_digits, crate::proofs::Digits::some_digit))]
    pub fn is_empty(self) -> bool
        ensures none { IsTrue result ↔ ((q : ℕ) → contains self q ≡ false) }
        ensures some { IsFalse result → (q : ℕ) × (contains self q ≡ true) }
    {
        self.digits == 0
    }

    // Whether some statement is in both sets.
    pub fn meets(self, other: Set) -> bool
        ensures { IsTrue result ↔ Meets self other }
    {
        !self.common(other).is_empty()
    }

    // Whether each statement of this set is in the other.
    pub fn is_within(self, other: Set) -> bool
        ensures { IsTrue result ↔ Within self other }
    {
        self.without(other).is_empty()
    }

    // The least statement of the set, if it has any.
    #[tactic(auto, using(crate::proofs::Digits::first_digit, crate::proofs::Digits::no_digits))]
    pub fn first(self) -> Option<u16>
        ensures { FirstOf self result }
    {
        if self.is_empty() {
            return None;
        }
        // Stays `as`: it is below 128, and `try_from` would give a failure that can't be.
        Some(self.digits.trailing_zeros() as u16)
    }

    // The statement of a set of one; none where the set has none or several.
    pub fn only(self) -> Option<u16>
        ensures { OnlyOf self result }
    {
        let first = self.first()?;
        if self == Set::single(first) {
            Some(first)
        } else {
            None
        }
    }

    // How many statements are in the set.
    #[tactic(auto, using(crate::proofs::Digits::count_of_row, crate::proofs::Digits::in_row, crate::proofs::Digits::none_past))]
    pub fn count(self) -> u16
        ensures { result ≡ how_many (row self) }
    {
        // Stays `as`, as above: there are at most 128.
        self.digits.count_ones() as u16
    }
}
