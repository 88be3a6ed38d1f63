ghost use Rattle.sheet.specs.Ledger.{is_listed};
ghost use Rattle.std.specs.Prelude.{◌≡◌, ◌+◌, ◌<◌, ◌≤◌, ◌↔◌, [], ◌∷◌, ◌++◌, IsTrue, length};

use semantics::Finding;

// The most findings that stand on a sheet.
pub(crate) const MOST: usize = 64;

// What stands in the places of no finding.
const NO_FINDING: Finding = Finding {
    statement: 0,
    present: false,
};

// The findings of a sheet, in the order in which they were entered: the first `count` of the records.
#[derive(Drop)]
pub(crate) struct Findings {
    pub records: [Finding; 64],
    pub count: usize,
}

impl Findings {
    ghost use Rattle.sheet.specs.Standing.{listed};

    pub(crate) fn none() -> Findings
        ensures listed { listed result ≡ [] }
        ensures count { result.count ≡ 0 }
    {
        Findings {
            records: [NO_FINDING; MOST],
            count: 0,
        }
    }

    pub(crate) fn all(&self) -> &[Finding]
        requires { self.now.count ≤ 64 }
        ensures value { result.now ≡ listed self.now }
        ensures count { length result.now ≡ self.now.count }
    {
        &self.records[..self.count]
    }

    // Whether a finding of the statement stands.
    pub(crate) fn lists(&self, statement: u16) -> bool
        requires { self.now.count ≤ 64 }
        ensures { result ≡ is_listed (listed self.now) statement }
    {
        self.all()
            .iter()
            .any(|finding| finding.statement == statement)
    }

    // One record more, written behind the last.
    pub(crate) fn push(&mut self, finding: Finding)
        requires { self.old.count < 64 }
        ensures listed { listed self.new ≡ listed self.old ++ finding ∷ [] }
        ensures count { self.new.count ≡ self.old.count + 1 }
    {
        self.records[self.count] = finding;
        self.count += 1;
    }

    // The last record, given back.
    pub(crate) fn pop(&mut self) -> Finding
        requires some { 0 < self.old.count }
        requires few { self.old.count ≤ 64 }
        ensures listed { listed self.old ≡ listed self.new ++ result ∷ [] }
        ensures count { self.old.count ≡ self.new.count + 1 }
    {
        let last = self.count - 1;
        self.count = last;
        self.records[last]
    }
}
