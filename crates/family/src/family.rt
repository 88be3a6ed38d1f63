ghost use Rattle.std.specs.Prelude.{◌≡◌, ℕ, List, [], ◌∷◌, ℤ};
ghost use Rattle.family.specs.Bags.{Takes};
ghost use Rattle.family.specs.Tallies.{Tallies};
ghost use Rattle.family.specs.Readings.{Reads};
ghost use Rattle.semantics.specs.Families.{Lawful, Values};

use super::kind::Kind;
use super::reading::Reading;
use super::tally::Tally;

// A family of aggregate functions. Each kind has a value of every bag of weights, and a tally keeps what is needed of
// the sure and of the open weights of a set to tell which values the set can come to.
pub trait Family {
    // Plain numbers, the number of weights taken among them.
    type Tally: Copy;

    // How many kinds there are.
    ghost size: { Self → ℕ };

    // What each kind makes of a bag: a number, or nothing.
    ghost value: { Self → Values };

    // The tally stands for this kind, this bag of sure weights and this bag of open ones. It may stand for many such
    // pairs of bags, and all that is said of it holds for each of them.
    ghost tallies: { Self → Self.Tally → ℕ → List ℤ → List ℤ → Type 0 };

    // How many kinds there are.
    fn kinds(&self) -> u16
        ensures { result ≡ size self.now };

    // A tally of the kind with no weights.
    fn start(&self, kind: u8) -> Self::Tally
        ensures { tallies self.now result kind [] [] };

    // Adds a sure weight. A weight that the tally does not take leaves it as it was.
    fn add_sure(&self, tally: &mut Self::Tally, weight: i32)
        ensures added { (k : ℕ) (s o : List ℤ)
            → tallies self.now tally.old k s o
            → Takes s o weight
            → tallies self.now tally.new k (weight ∷ s) o }
        ensures kept { (k : ℕ) (s o : List ℤ)
            → tallies self.now tally.old k s o
            → (Takes s o weight → ⊥)
            → tally.new ≡ tally.old };

    // Adds an open weight. A weight that the tally does not take leaves it as it was.
    fn add_open(&self, tally: &mut Self::Tally, weight: i32)
        ensures added { (k : ℕ) (s o : List ℤ)
            → tallies self.now tally.old k s o
            → Takes s o weight
            → tallies self.now tally.new k s (weight ∷ o) }
        ensures kept { (k : ℕ) (s o : List ℤ)
            → tallies self.now tally.old k s o
            → (Takes s o weight → ⊥)
            → tally.new ≡ tally.old };

    // What the bags come to that have every sure weight and some, none or all of the open ones.
    fn read(&self, tally: &Self::Tally) -> Reading
        ensures { (k : ℕ) (s o : List ℤ)
            → tallies self.now tally.now k s o
            → Reads (value self.now k) s o result };

    // There are at most 256 kinds, the order of a bag never matters, a kind that is lacking makes nothing of any bag,
    // and numbers are within 1,000,000,000,000 of zero.
    ghost lawful: { (f : Self) → Lawful (size f) (value f) };
}

// A family that keeps what a tally's two bags tell, and has these kinds. A family that keeps anything else implements
// `Family` itself.
pub trait Kinded {
    type Kind: Kind;
}

impl<F: Kinded> Family for F {
    type Tally = Tally<F::Kind>;

    ghost size = { λ _. F.Kind.COUNT };

    ghost value = { λ _. F.Kind.value };

    ghost tallies = { λ _. Tallies F.Kind.try_from_gives };

    ghost lawful = { λ _. F.Kind.lawful };

    fn kinds(&self) -> u16 {
        F::Kind::COUNT
    }

    fn start(&self, kind: u8) -> Tally<F::Kind> {
        Tally::start(kind)
    }

    fn add_sure(&self, tally: &mut Tally<F::Kind>, weight: i32) {
        tally.add_sure(weight);
    }

    fn add_open(&self, tally: &mut Tally<F::Kind>, weight: i32) {
        tally.add_open(weight);
    }

    fn read(&self, tally: &Tally<F::Kind>) -> Reading {
        match tally.kind {
            Some(kind) => kind.read(&tally.sure, &tally.open),
            None => Reading::nothing_or(None),
        }
    }
}
