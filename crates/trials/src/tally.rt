// How often which call was answered how, and what differed.
use super::told::{Sort, Told};
use std::alloc::{AllocError, Global};
use std::collections::BTreeMap;
use std::fmt;

#[derive(Clone, Copy, PartialEq, Eq, PartialOrd, Ord, Debug)]
pub(crate) enum Call {
    Check,
    CheckDamaged,
    Enter,
    Withdraw,
    Draw,
    Seek,
    Weigh,
    Suppose,
    Why,
    SignedDraw,
    SignedSeek,
    SignedWeigh,
    SignedWhy,
    Report,
    Run,
    Stands,
}

pub(crate) const CALLS: [Call; 16] = [
    Call::Check,
    Call::CheckDamaged,
    Call::Enter,
    Call::Withdraw,
    Call::Draw,
    Call::Seek,
    Call::Weigh,
    Call::Suppose,
    Call::Why,
    Call::SignedDraw,
    Call::SignedSeek,
    Call::SignedWeigh,
    Call::SignedWhy,
    Call::Report,
    Call::Run,
    Call::Stands,
];

impl fmt::Display for Call {
    fn fmt<W: fmt::Write>(&self, f: &mut fmt::Formatter<W>) -> fmt::Result {
        f.write_str(match self {
            Call::Check => "check of tables",
            Call::CheckDamaged => "check of damaged tables",
            Call::Enter => "enter",
            Call::Withdraw => "withdraw",
            Call::Draw => "draw",
            Call::Seek => "seek",
            Call::Weigh => "weigh",
            Call::Suppose => "suppose",
            Call::Why => "why",
            Call::SignedDraw => "signed draw",
            Call::SignedSeek => "signed seek",
            Call::SignedWeigh => "signed weigh",
            Call::SignedWhy => "signed why",
            Call::Report => "signed report",
            Call::Run => "visits of a run",
            Call::Stands => "findings after a run",
        })
    }
}

// A call with the sort of its answer.
#[derive(Clone, Copy, PartialEq, Eq, PartialOrd, Ord, Debug)]
struct Line {
    call: Call,
    sort: Sort,
}

// How many differences are kept as text.
const KEPT: usize = 5;

#[derive(Drop)]
pub(crate) struct Tally {
    answers: BTreeMap<Line, u64>,
    differing: BTreeMap<Call, u64>,
    pub differences: Vec<String>,
}

impl Tally {
    pub(crate) fn new(heap: Global) -> Tally {
        Tally {
            answers: BTreeMap::new(heap),
            differing: BTreeMap::new(heap),
            differences: Vec::new(heap),
        }
    }

    // Counts a call with the answer that is expected, and whether it was given.
    pub(crate) fn count(&mut self, call: Call, told: Told, agrees: bool) -> Result<(), AllocError> {
        let sort = told.sort();
        let answers = self.answers.entry(Line { call, sort })?.or_insert(0);
        *answers = answers.saturating_add(1);
        if !agrees {
            let differing = self.differing.entry(call)?.or_insert(0);
            *differing = differing.saturating_add(1);
        }
        Ok(())
    }

    // Whether the next difference is told in full.
    pub(crate) fn has_room(&self) -> bool {
        self.differences.len() < KEPT
    }

    pub(crate) fn all_agree(&self) -> bool {
        self.differing.is_empty()
    }

    fn push_answers(&self, text: &mut String, call: Call) -> Result<(), AllocError> {
        let mut is_first = true;
        for (line, count) in self.answers.iter() {
            if line.call == call {
                text.push(if is_first { ':' } else { ',' })?;
                is_first = false;
                let sort = line.sort;
                write!(text, " {count} {sort}")?;
            }
        }
        Ok(())
    }

    // How many answers of a call were compared.
    fn total(&self, call: Call) -> u64 {
        let mut total = 0u64;
        for (line, count) in self.answers.iter() {
            if line.call == call {
                total = total.saturating_add(*count);
            }
        }
        total
    }

    // The line of a call: how often each answer was expected, and how many were given.
    pub(crate) fn text(&self, heap: Global, call: Call) -> Result<String, AllocError> {
        let mut text = format!(in heap; "{call}")?;
        self.push_answers(&mut text, call)?;
        let total = self.total(call);
        match self.differing.get(&call) {
            Some(differing) => {
                let agreeing = total.saturating_sub(*differing);
                write!(text, "; {agreeing} agree, {differing} DIFFER")?;
            }
            None => write!(text, "; all {total} agree")?,
        }
        Ok(text)
    }
}
