#![tactic(auto)]

use anyhow::anyhow;
use bench::Bench;
use cases::Word;
use drawing::draw;
use family::Family;
use house::House;
use marking::Marking;
use presence::Presence;
use semantics::{Finding, Mark};
use solver::{Account, Accounts};
use std::alloc::Global;
use table::table::Table;

// Makes the call of each case. A case is a line: a name, the call (`draw`, `seek`, `weigh:3`, or `count` and
// `count:3` for how much the last two search), the family, findings, as `+0` where statement 0 was found
// present and `-1` where statement 1 was found absent, and the bytes of a table in hexadecimal, where `00ff*3` stands for
// `00ff` three times.

#[derive(Drop)]
struct Case {
    findings: Vec<Finding>,
    bytes: Vec<u8>,
}

fn push_finding(findings: &mut Vec<Finding>, number: &str, present: bool) -> anyhow::Result<()> {
    let statement = number.parse::<u16>()?;
    findings.push(Finding { statement, present })?;
    Ok(())
}

impl Case {
    fn read(heap: Global, words: &str) -> anyhow::Result<Case> {
        let mut findings = Vec::new(heap);
        let mut bytes = Vec::new(heap);
        for word in words.split_whitespace() {
            match (word.strip_prefix('+'), word.strip_prefix('-')) {
                (Some(number), _) => push_finding(&mut findings, number, true)?,
                (_, Some(number)) => push_finding(&mut findings, number, false)?,
                (None, None) => Word::parse(word)?.push_to(&mut bytes)?,
            }
        }
        Ok(Case { findings, bytes })
    }
}

// The names of the statements with this mark, each after a blank.
fn names(heap: Global, table: &Table, marking: &Marking, mark: Mark) -> anyhow::Result<String> {
    let mut names = String::new(heap);
    for statement in 0..marking.statements() {
        if marking.mark(statement) == mark {
            let name = table.name(statement);
            write!(names, " {name}")?;
        }
    }
    Ok(names)
}

// The statements that are in, those that are out and those that are open, as `in a b, out c, open d`.
fn marking_text(heap: Global, table: &Table, marking: &Marking) -> anyhow::Result<String> {
    let mut text = String::new(heap);
    for mark in [Mark::In, Mark::Out, Mark::Open] {
        let names = names(heap, table, marking, mark)?;
        if names.is_empty() {
            continue;
        }
        if !text.is_empty() {
            text.push_str(", ")?;
        }
        write!(text, "{mark}{names}")?;
    }
    if text.is_empty() {
        text.push_str("nothing to mark")?;
    }
    Ok(text)
}

fn drawn_text<F: Family>(
    heap: Global,
    family: &F,
    table: &Table,
    case: &Case,
) -> anyhow::Result<String> {
    match draw(table, family, &case.findings) {
        Some(marking) => marking_text(heap, table, &marking),
        None => Ok(String::from_str(heap, "clash")?),
    }
}

// The earliest account, as `account 2: a b`.
fn account_text(heap: Global, table: &Table, account: Option<Account>) -> anyhow::Result<String> {
    let Some(account) = account else {
        return Ok(String::from_str(heap, "none")?);
    };
    let names = names(heap, table, &account.marks, Mark::In)?;
    Ok(format!(in heap; "account {}:{names}", account.statements_in)?)
}

// How much was searched: nodes for accounts, and nodes in the tests of rows.
fn effort_text<F>(heap: Global, accounts: &Accounts<F>) -> anyhow::Result<String> {
    let (seeking, testing) = (&accounts.seeking, &accounts.testing);
    Ok(format!(in heap;
        "{} nodes, {} conflicts; tests {} nodes, {} conflicts",
        seeking.nodes.get(),
        seeking.conflicts.get(),
        testing.nodes.get(),
        testing.conflicts.get()
    )?)
}

// Which call a case makes, and whether what it tells is how much was searched.
#[derive(Clone, Copy)]
enum Call {
    Draw,
    Seek,
    Weigh(u16),
    CountSeek,
    CountWeigh(u16),
}

impl Call {
    // The word of a call; `weigh:3` weighs statement 3.
    fn read(word: &str) -> anyhow::Result<Call> {
        match word.split_once(':') {
            None if word == "draw" => Ok(Call::Draw),
            None if word == "seek" => Ok(Call::Seek),
            None if word == "count" => Ok(Call::CountSeek),
            Some(("weigh", number)) => Ok(Call::Weigh(number.parse::<u16>()?)),
            Some(("count", number)) => Ok(Call::CountWeigh(number.parse::<u16>()?)),
            _ => Err(anyhow!("a case calls none of draw, seek, weigh and count")),
        }
    }
}

fn answer<F: Family>(heap: Global, call: Call, family: &F, case: &Case) -> anyhow::Result<String> {
    let table = Table::open(&case.bytes);
    if !table.is_opened() {
        return Ok(String::from_str(heap, "no table")?);
    }
    let start = Marking::noted(table.statements(), &case.findings);
    let accounts = Accounts::new(&table, family);
    match call {
        Call::Draw => drawn_text(heap, family, &table, case),
        Call::Seek => account_text(heap, &table, accounts.earliest(start)),
        Call::Weigh(statement) => Ok(accounts.weigh(start, statement).to_string(heap)?),
        Call::CountSeek => {
            accounts.earliest(start);
            effort_text(heap, &accounts)
        }
        Call::CountWeigh(statement) => {
            accounts.weigh(start, statement);
            effort_text(heap, &accounts)
        }
    }
}

fn tell(rt: &HostRuntime, line: &str) -> anyhow::Result<()> {
    let heap = rt.alloc();
    let (name, rest) = line.split_once(' ').unwrap_or((line, ""));
    let (call, rest) = rest.split_once(' ').unwrap_or((rest, ""));
    let (family, words) = rest.split_once(' ').unwrap_or((rest, ""));
    let call = Call::read(call)?;
    let case = Case::read(heap, words)?;
    let text = match family {
        "house" => answer(heap, call, &House, &case)?,
        "bench" => answer(heap, call, &Bench, &case)?,
        "presence" => answer(heap, call, &Presence, &case)?,
        _ => return Err(anyhow!("a case names none of house, bench and presence")),
    };
    println!(rt; "{name}: {text}")?;
    Ok(())
}

// The loop over the lines stays in each of the four programs: a function that takes `tell` would be longer than the loop.
fn main(rt: HostRuntime) -> anyhow::Result<()> {
    let text = std::io::read_to_string(rt.alloc(), rt.stdin())?;
    for line in text.lines() {
        tell(&rt, line)?;
    }
    Ok(())
}
