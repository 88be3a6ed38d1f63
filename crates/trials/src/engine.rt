// The calls of the engine, each made by its name, with what they are answered in the one form that is compared.
use super::tally::Call;
use super::told::Told;
use family::Family;
use format::check::Counts;
use refusal::Fault;
use sheet::{Answer, Sheet, SignedSheet, Visit};
use solver::Support;
use table::table::Table;

pub(crate) fn call_of(visit: Visit) -> Call {
    match visit {
        Visit::Enter(_) => Call::Enter,
        Visit::Withdraw => Call::Withdraw,
        Visit::Draw => Call::Draw,
        Visit::Seek => Call::Seek,
        Visit::Weigh(_) => Call::Weigh,
        Visit::Suppose(_) => Call::Suppose,
    }
}

// Makes a visit by the call of its name.
pub(crate) fn make<F: Family>(
    sheet: &mut Sheet,
    table: &Table,
    engine: &F,
    visit: Visit,
    part: &mut [u8],
) -> Result<Answer, Fault> {
    match visit {
        Visit::Enter(finding) => sheet.enter(finding).map(|()| Answer::Entered),
        Visit::Withdraw => sheet.withdraw().map(Answer::Withdrawn),
        Visit::Draw => sheet.draw(table, engine, part).map(Answer::Drawn),
        Visit::Seek => sheet.seek(table, engine, part).map(Answer::Sought),
        Visit::Weigh(statement) => sheet.weigh(table, engine, statement).map(Answer::Weighed),
        Visit::Suppose(finding) => sheet
            .suppose(table, engine, finding, part)
            .map(Answer::Sought),
    }
}

// Makes a visit that a signed sheet allows; none for one that it does not.
pub(crate) fn make_signed<F: Family>(
    sheet: &SignedSheet,
    table: &Table,
    engine: &F,
    visit: Visit,
    part: &mut [u8],
) -> Option<(Call, Told)> {
    let (call, answer) = match visit {
        Visit::Draw => {
            let answer = sheet.draw(table, engine, part).map(Answer::Drawn);
            (Call::SignedDraw, answer)
        }
        Visit::Seek => {
            let answer = sheet.seek(table, engine, part).map(Answer::Sought);
            (Call::SignedSeek, answer)
        }
        Visit::Weigh(statement) => {
            let answer = sheet.weigh(table, engine, statement).map(Answer::Weighed);
            (Call::SignedWeigh, answer)
        }
        _ => return None,
    };
    Some((call, Told::of(&answer)))
}

pub(crate) fn told_of_support(answer: Result<Support, Fault>) -> Told {
    match answer {
        Ok(support) => Told::of_support(support),
        Err(fault) => Told::of_fault(fault),
    }
}

pub(crate) fn told_of_check(checked: Result<Counts, Fault>) -> Told {
    match checked {
        Ok(counts) => Told::Accepted([
            usize::from(counts.statements),
            usize::from(counts.rules),
            usize::from(counts.literals),
            usize::from(counts.aggregates),
            usize::from(counts.members),
            usize::from(counts.names),
        ]),
        Err(fault) => Told::of_fault(fault),
    }
}
