ghost use Rattle.std.specs.Prelude.{ℕ, List, ℤ};
ghost use Rattle.family.specs.Bags.{Takes};
ghost use Rattle.judging.specs.Weights.{if_in, if_open};

use family::Family;
use semantics::Mark;

// Adds the weight of a member with this mark: as a sure one where it is in, as an open one where it is open, and not
// at all where it is out.
pub fn add_marked<F: Family>(family: &F, tally: &mut F::Tally, mark: Mark, weight: i32)
    ensures { (k : ℕ) (s o : List ℤ)
        → F.tallies family.now tally.old k s o
        → Takes s o weight
        → F.tallies family.now tally.new k (if_in mark weight s) (if_open mark weight o) }
{
    match mark {
        Mark::In => family.add_sure(tally, weight),
        Mark::Open => family.add_open(tally, weight),
        Mark::Out => {}
    }
}
