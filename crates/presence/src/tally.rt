ghost use Rattle.std.specs.Prelude.{◌≡◌, ◌+◌, ◌≤◌, min, pos};

use family::Span;

// How many sure and how many open weights there are, for one kind. It stands for every pair of bags with so many.
#[derive(Clone, Copy)]
pub struct PresenceTally {
    pub kind: u8,
    pub sure: u32,
    pub opens: u32,
    pub ghost few: { sure + opens ≤ 128 },
}

impl PresenceTally {
    // Whether there is a weight, as 1 or 0: least with no open one, and greatest with all of them.
    pub(crate) fn presences(&self) -> Span
        ensures least { result.least ≡ pos (min self.now.sure 1) }
        ensures greatest { result.greatest ≡ pos (min (self.now.sure + self.now.opens) 1) }
    {
        Span {
            least: i64::from(self.sure.min(1)),
            greatest: i64::from((self.sure + self.opens).min(1)),
        }
    }
}
