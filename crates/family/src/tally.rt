ghost use Rattle.std.specs.Prelude.{◌≡◌, ◌+◌, ◌≤◌, ⊤, ℕ, List, [], ◌∷◌, ℤ};
ghost use Rattle.family.specs.Bags.{Takes};

use super::kind::LackingKind;
use super::summary::Summary;
use super::weights::takes;
use std::alloc::AllocError;

// What is kept of a bag of sure weights and a bag of open ones, for one kind, or for none that the family has. A sure and
// an open weight are added by two calls, as a family does it: each has a promise with no case in it.
pub struct Tally<K> {
    pub kind: Option<K>,
    pub sure: Summary,
    pub open: Summary,
    pub ghost few: { sure.count + «open».count ≤ 128 },
}

// Written out: Clone is not derived for a struct that is generic and has a ghost field.
impl<K: Copy> Clone for Tally<K> {
    ghost is_clone = { λ tally clone. clone ≡ tally };

    ghost is_infallible = { λ _. ⊤ };

    fn clone(&self) -> Result<Tally<K>, AllocError> {
        Ok(*self)
    }
}

impl<K: Copy> Copy for Tally<K> {}

impl<K: TryFrom<u8, Error = LackingKind> + Copy> Tally<K> {
    ghost use Rattle.family.specs.Tallies.{Tallies};

    // Of the kind with this number, with no weights.
    pub fn start(kind: u8) -> Tally<K>
        ensures { Tallies K.try_from_gives result kind [] [] }
    {
        Tally {
            kind: K::try_from(kind).ok(),
            sure: Summary::new(),
            open: Summary::new(),
        }
    }

    // Adds a sure weight. A weight that the tally does not take leaves it as it was.
    pub fn add_sure(&mut self, weight: i32)
        ensures added { (k : ℕ) (s o : List ℤ)
            → Tallies K.try_from_gives self.old k s o
            → Takes s o weight
            → Tallies K.try_from_gives self.new k (weight ∷ s) o }
        ensures kept { (k : ℕ) (s o : List ℤ)
            → Tallies K.try_from_gives self.old k s o
            → (Takes s o weight → ⊥)
            → self.new ≡ self.old }
    {
        if takes(self.sure.count + self.open.count, weight) {
            self.sure.put(i64::from(weight));
        }
    }

    // Adds an open weight. A weight that the tally does not take leaves it as it was.
    pub fn add_open(&mut self, weight: i32)
        ensures added { (k : ℕ) (s o : List ℤ)
            → Tallies K.try_from_gives self.old k s o
            → Takes s o weight
            → Tallies K.try_from_gives self.new k s (weight ∷ o) }
        ensures kept { (k : ℕ) (s o : List ℤ)
            → Tallies K.try_from_gives self.old k s o
            → (Takes s o weight → ⊥)
            → self.new ≡ self.old }
    {
        if takes(self.sure.count + self.open.count, weight) {
            self.open.put(i64::from(weight));
        }
    }
}
