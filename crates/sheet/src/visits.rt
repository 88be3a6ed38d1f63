use refusal::Fault;
use semantics::Finding;
use solver::Weighing;

// What is asked of a sheet: a finding is entered, the latest one is withdrawn, what they force is drawn, the earliest
// account is sought, a statement is weighed over all accounts, or one finding more is supposed and the account sought.
#[derive(Clone, Copy, PartialEq, Eq, Debug)]
pub enum Visit {
    Enter(Finding),
    Withdraw,
    Draw,
    Seek,
    Weigh(u16),
    Suppose(Finding),
}

// What came of drawing: a settled marking, which is written, or a clash.
#[derive(Clone, Copy, PartialEq, Eq, Debug)]
pub enum Drawing {
    Settled,
    Clash,
}

// What a visit is answered where it is not refused. Of the account that was sought, how many statements are in it.
#[derive(Clone, Copy, PartialEq, Eq, Debug)]
pub enum Answer {
    Entered,
    Withdrawn(Finding),
    Drawn(Drawing),
    Sought(Option<u16>),
    Weighed(Weighing),
}

// A visit with the part that is handed over for it, and, once it has been made, its answer.
#[derive(Drop)]
pub struct Entry {
    pub visit: Visit,
    pub part: Vec<u8>,
    pub answer: Option<Result<Answer, Fault>>,
}
