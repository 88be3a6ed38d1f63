// What a call is answered, in one form for the engine and for the plain reading, so that the two can be compared.
use refusal::Fault;
use sheet::{Answer, Drawing};
use solver::{Support, Weighing};
use std::fmt;

#[derive(Clone, Copy, PartialEq, Eq, Debug)]
pub(crate) enum Told {
    // The counts of the six areas.
    Accepted([usize; 6]),
    Entered,
    // The statement, and whether it was found present.
    Withdrawn(u16, bool),
    Settled,
    Clash,
    // How many statements are in.
    Account(u16),
    NoAccount,
    InEvery,
    InNone,
    InSome,
    // The number of the rule.
    ByRule(usize),
    ByNone,
    NotIn,
    // The length of the text.
    Reported(usize),
    // How many findings stand in the end.
    Standing(usize),
    // The number and the place.
    Refused(u8, usize),
    // A visit that a run left without an answer.
    Unanswered,
}

// An answer without what belongs to one case alone, as it is counted.
#[derive(Clone, Copy, PartialEq, Eq, PartialOrd, Ord, Debug)]
pub(crate) enum Sort {
    Accepted,
    Entered,
    Withdrawn,
    Settled,
    Clash,
    Account,
    NoAccount,
    InEvery,
    InNone,
    InSome,
    ByRule,
    ByNone,
    NotIn,
    Reported,
    Standing,
    Refused(u8),
    Unanswered,
}

impl Told {
    pub(crate) fn sort(self) -> Sort {
        match self {
            Told::Accepted(_) => Sort::Accepted,
            Told::Entered => Sort::Entered,
            Told::Withdrawn(..) => Sort::Withdrawn,
            Told::Settled => Sort::Settled,
            Told::Clash => Sort::Clash,
            Told::Account(_) => Sort::Account,
            Told::NoAccount => Sort::NoAccount,
            Told::InEvery => Sort::InEvery,
            Told::InNone => Sort::InNone,
            Told::InSome => Sort::InSome,
            Told::ByRule(_) => Sort::ByRule,
            Told::ByNone => Sort::ByNone,
            Told::NotIn => Sort::NotIn,
            Told::Reported(_) => Sort::Reported,
            Told::Standing(_) => Sort::Standing,
            Told::Refused(number, _) => Sort::Refused(number),
            Told::Unanswered => Sort::Unanswered,
        }
    }

    pub(crate) fn of_fault(fault: Fault) -> Told {
        Told::Refused(fault.refusal.number(), fault.place)
    }

    pub(crate) fn of_drawing(drawing: Drawing) -> Told {
        match drawing {
            Drawing::Settled => Told::Settled,
            Drawing::Clash => Told::Clash,
        }
    }

    pub(crate) fn of_sought(sought: Option<u16>) -> Told {
        match sought {
            Some(count) => Told::Account(count),
            None => Told::NoAccount,
        }
    }

    pub(crate) fn of_weighing(weighing: Weighing) -> Told {
        match weighing {
            Weighing::NoAccount => Told::NoAccount,
            Weighing::InEvery => Told::InEvery,
            Weighing::InNone => Told::InNone,
            Weighing::InSome => Told::InSome,
        }
    }

    pub(crate) fn of_support(support: Support) -> Told {
        match support {
            Support::ByRule(number) => Told::ByRule(number),
            Support::ByNone => Told::ByNone,
            Support::NotIn => Told::NotIn,
        }
    }

    fn of_answer(answer: Answer) -> Told {
        match answer {
            Answer::Entered => Told::Entered,
            Answer::Withdrawn(finding) => Told::Withdrawn(finding.statement, finding.present),
            Answer::Drawn(drawing) => Told::of_drawing(drawing),
            Answer::Sought(sought) => Told::of_sought(sought),
            Answer::Weighed(weighing) => Told::of_weighing(weighing),
        }
    }

    pub(crate) fn of(answer: &Result<Answer, Fault>) -> Told {
        match answer {
            Ok(answer) => Told::of_answer(*answer),
            Err(fault) => Told::of_fault(*fault),
        }
    }
}

impl fmt::Display for Sort {
    fn fmt<W: fmt::Write>(&self, f: &mut fmt::Formatter<W>) -> fmt::Result {
        f.write_str(match self {
            Sort::Accepted => "accepted",
            Sort::Entered => "entered",
            Sort::Withdrawn => "withdrawn",
            Sort::Settled => "settled",
            Sort::Clash => "clash",
            Sort::Account => "account",
            Sort::NoAccount => "no account",
            Sort::InEvery => "in every",
            Sort::InNone => "in none",
            Sort::InSome => "in some only",
            Sort::ByRule => "by a rule",
            Sort::ByNone => "by none",
            Sort::NotIn => "not in",
            Sort::Reported => "reported",
            Sort::Standing => "left standing",
            Sort::Unanswered => "unanswered",
            Sort::Refused(number) => return write!(f, "refused {number}"),
        })
    }
}
