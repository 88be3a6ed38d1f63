// What one trial is about: its tables and its journal, sheets beside the ledgers that they should keep, and what comes
// of a call.
use super::known::Known;
use super::ledger::{Asked, Ledger};
use super::requests::{Request, Which};
use super::tally::Call;
use super::told::Told;
use family::Family;
use semantics::Finding;
use sheet::{Sheet, SignedSheet};
use std::alloc::AllocError;

// The tables of a trial, as the plain reading knows them: the one that most calls are about, another one, and bytes
// that are no table.
#[derive(Drop)]
pub(crate) struct Tables {
    pub own: Known,
    pub other: Known,
    pub unopened: Known,
}

impl Tables {
    pub(crate) fn known(&self, which: Which) -> &Known {
        match which {
            Which::Own => &self.own,
            Which::Other => &self.other,
            Which::Unopened => &self.unopened,
        }
    }
}

// What a trial is made of: the tables, the family, the table on which the sheet is begun, and the journal.
#[derive(Drop)]
pub(crate) struct Setting<'a, F: Family> {
    pub tables: &'a Tables,
    pub engine: &'a F,
    pub begun: Which,
    pub requests: &'a [Request],
}

// A sheet and the ledger that it should keep.
#[derive(Drop)]
pub(crate) struct Pair {
    pub sheet: Sheet,
    pub ledger: Ledger,
}

// A signed sheet and the ledger that it should keep.
#[derive(Drop)]
pub(crate) struct SignedPair {
    pub sheet: SignedSheet,
    pub ledger: Ledger,
}

impl Pair {
    pub(crate) fn wanted<'a>(&'a self, told: Told, part: &'a [u8]) -> Outcome<'a> {
        Outcome {
            told,
            part,
            findings: &self.ledger.findings,
            statements: self.ledger.statements,
        }
    }

    pub(crate) fn given<'a>(&'a self, told: Told, part: &'a [u8]) -> Outcome<'a> {
        Outcome {
            told,
            part,
            findings: self.sheet.findings(),
            statements: self.sheet.statements(),
        }
    }

    pub(crate) fn sign(self) -> SignedPair {
        let Pair { sheet, ledger } = self;
        SignedPair {
            sheet: sheet.sign(),
            ledger,
        }
    }
}

impl SignedPair {
    pub(crate) fn wanted<'a>(&'a self, told: Told, part: &'a [u8]) -> Outcome<'a> {
        Outcome {
            told,
            part,
            findings: &self.ledger.findings,
            statements: self.ledger.statements,
        }
    }

    pub(crate) fn given<'a>(&'a self, told: Told, part: &'a [u8]) -> Outcome<'a> {
        Outcome {
            told,
            part,
            findings: self.sheet.findings(),
            statements: self.sheet.statements(),
        }
    }
}

// A call whose outcome is compared: what was asked, or nothing where it is what stands after a run; and of which table.
#[derive(Clone, Copy)]
pub(crate) struct Inquiry {
    pub call: Call,
    pub asked: Option<Asked>,
    pub which: Which,
}

impl Inquiry {
    pub(crate) fn new(call: Call, asked: Asked, which: Which) -> Inquiry {
        let asked = Some(asked);
        Inquiry { call, asked, which }
    }

    pub(crate) fn push_to(&self, text: &mut String) -> Result<(), AllocError> {
        let which = self.which;
        match self.asked {
            Some(asked) => write!(text, "\nasked  {asked:?} of {which:?}"),
            None => write!(text, "\nasked  what stands after a run on {which:?}"),
        }
    }
}

// What a call came to: the answer, the part, what stands and on how many statements.
#[derive(Clone, Copy)]
pub(crate) struct Outcome<'a> {
    pub told: Told,
    pub part: &'a [u8],
    pub findings: &'a [Finding],
    pub statements: u16,
}

impl Outcome<'_> {
    pub(crate) fn agrees(&self, other: &Outcome) -> bool {
        self.told == other.told
            && self.part == other.part
            && self.findings == other.findings
            && self.statements == other.statements
    }

    pub(crate) fn push_to(&self, text: &mut String) -> Result<(), AllocError> {
        let (told, statements) = (self.told, self.statements);
        write!(text, "{told:?}; on {statements} statements stands")?;
        for finding in self.findings {
            let sign = if finding.present { '+' } else { '-' };
            write!(text, " {sign}{}", finding.statement)?;
        }
        text.push_str("; part ")?;
        push_hex(text, self.part)
    }
}

pub(crate) fn push_hex(text: &mut String, bytes: &[u8]) -> Result<(), AllocError> {
    for byte in bytes {
        write!(text, "{byte:02x}")?;
    }
    Ok(())
}

// The table on which the sheet is begun, and the visits of the journal.
pub(crate) fn push_journal(
    text: &mut String,
    begun: Which,
    requests: &[Request],
) -> Result<(), AllocError> {
    write!(text, "\nbegun on {begun:?}, and these visits")?;
    for request in requests {
        let (visit, which, room) = (request.visit, request.which, request.room);
        write!(text, "\n  {visit:?} of {which:?}, a part of {room}")?;
    }
    Ok(())
}
