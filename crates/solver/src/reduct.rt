ghost use Rattle.std.specs.Prelude.{◌≡◌, false, length, replicate, slice_set, true};

// The rules that bind the parts of a row: those whose body is true in it, by their numbers. Stays an array of the format's
// limit of 1,024 rules, since the test of a row allocates nothing.
#[derive(Drop)]
pub(crate) struct Reduct {
    kept: [bool; 1024],
    ghost long: { length kept ≡ 1024 },
}

impl Reduct {
    ghost use Rattle.solver.specs.Reducts.{keeps};

    // No rule is kept.
    pub(crate) fn none() -> Reduct
        ensures { result.kept ≡ replicate 1024 false }
    {
        Reduct {
            kept: [false; 1024],
        }
    }

    // Keeps a rule.
    pub(crate) fn keep(&mut self, rule: usize)
        ensures { self.new.kept ≡ slice_set self.old.kept rule true }
    {
        if rule < self.kept.len() {
            self.kept[rule] = true;
        }
    }

    // Whether a rule is kept.
    pub(crate) fn has(&self, rule: usize) -> bool
        ensures { result ≡ keeps self.now.kept rule }
    {
        self.kept.get(rule).copied().unwrap_or(false)
    }
}
