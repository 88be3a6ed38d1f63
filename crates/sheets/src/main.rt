#![tactic(auto)]

use anyhow::anyhow;
use bench::Bench;
use cases::Word;
use family::Family;
use house::House;
use presence::Presence;
use refusal::Fault;
use semantics::Finding;
use sheet::{Answer, Drawing, Entry, Sheet, SignedSheet, Visit, run};
use solver::Support;
use std::alloc::Global;
use table::table::Table;

// Makes the calls of each case on a sheet. A case is a line: a name, the family, the bytes of a table in hexadecimal,
// where `00ff*3` stands for `00ff` three times, and after ` : ` the calls: `+0` and `-0` enter statement 0 as present
// and as absent, `withdraw`, `draw`, `seek`, `weigh:0`, `suppose+0`, `suppose-0`, and `why:0=12` asks on what statement
// 0 stands in the row of the bytes 1 and 2. After ` sign` come those on the signed sheet, `report` among them. Where
// ` on ` parts the bytes in two, the sheet is begun on the second table. A part has two bytes more than there are
// statements, or 4,622 for a report, unless the call says how many, as `draw/3`; each is 7 before the call. What is
// printed of a call is its answer and, in brackets, the bytes of its part.

// What a byte of a part is before a call.
const BEFORE: u8 = 7;

// How many bytes a report's part has, unless the call says how many.
const REPORT_ROOM: usize = lines::MOST + 2;

fn finding(number: &str, present: bool) -> anyhow::Result<Finding> {
    let statement = number.parse::<u16>()?;
    Ok(Finding { statement, present })
}

// The visit of a word, without the length of its part.
fn read_visit(word: &str) -> anyhow::Result<Visit> {
    if let Some(number) = word.strip_prefix('+') {
        return Ok(Visit::Enter(finding(number, true)?));
    }
    if let Some(number) = word.strip_prefix('-') {
        return Ok(Visit::Enter(finding(number, false)?));
    }
    if let Some(number) = word.strip_prefix("suppose+") {
        return Ok(Visit::Suppose(finding(number, true)?));
    }
    if let Some(number) = word.strip_prefix("suppose-") {
        return Ok(Visit::Suppose(finding(number, false)?));
    }
    if let Some(number) = word.strip_prefix("weigh:") {
        return Ok(Visit::Weigh(number.parse::<u16>()?));
    }
    match word {
        "withdraw" => Ok(Visit::Withdraw),
        "draw" => Ok(Visit::Draw),
        "seek" => Ok(Visit::Seek),
        _ => Err(anyhow!("{word} is no call")),
    }
}

// A word without the length of its part, and that length.
fn read_length(word: &str, usual: usize) -> anyhow::Result<(&str, usize)> {
    match word.split_once('/') {
        Some((word, number)) => Ok((word, number.parse::<usize>()?)),
        None => Ok((word, usual)),
    }
}

// The visit of a word with its part, which has not been made.
fn read_entry(heap: Global, word: &str, statements: u16) -> anyhow::Result<Entry> {
    let (word, length) = read_length(word, usize::from(statements) + 2)?;
    Ok(Entry {
        visit: read_visit(word)?,
        part: vec![in heap; BEFORE; length]?,
        answer: None,
    })
}

// A statement and the bytes of a row, a digit for each.
fn read_question(heap: Global, word: &str) -> anyhow::Result<(u16, Vec<u8>)> {
    let Some((number, digits)) = word.split_once('=') else {
        return Err(anyhow!("{word} has no row"));
    };
    let mut row = Vec::new(heap);
    for digit in digits.bytes() {
        row.push(digit.wrapping_sub(b'0'))?;
    }
    Ok((number.parse::<u16>()?, row))
}

// Makes a visit by the call of its name.
fn make<F: Family>(
    sheet: &mut Sheet,
    table: &Table,
    family: &F,
    visit: Visit,
    part: &mut [u8],
) -> Result<Answer, Fault> {
    match visit {
        Visit::Enter(finding) => sheet.enter(finding).map(|()| Answer::Entered),
        Visit::Withdraw => sheet.withdraw().map(Answer::Withdrawn),
        Visit::Draw => sheet.draw(table, family, part).map(Answer::Drawn),
        Visit::Seek => sheet.seek(table, family, part).map(Answer::Sought),
        Visit::Weigh(statement) => sheet.weigh(table, family, statement).map(Answer::Weighed),
        Visit::Suppose(finding) => sheet
            .suppose(table, family, finding, part)
            .map(Answer::Sought),
    }
}

// Makes a visit that a signed sheet allows.
fn make_signed<F: Family>(
    sheet: &SignedSheet,
    table: &Table,
    family: &F,
    visit: Visit,
    part: &mut [u8],
) -> anyhow::Result<Result<Answer, Fault>> {
    match visit {
        Visit::Draw => Ok(sheet.draw(table, family, part).map(Answer::Drawn)),
        Visit::Seek => Ok(sheet.seek(table, family, part).map(Answer::Sought)),
        Visit::Weigh(statement) => Ok(sheet.weigh(table, family, statement).map(Answer::Weighed)),
        _ => Err(anyhow!("a signed sheet does not allow this")),
    }
}

fn push_finding(text: &mut String, finding: Finding) -> anyhow::Result<()> {
    let sign = if finding.present { '+' } else { '-' };
    write!(text, " {sign}{}", finding.statement)?;
    Ok(())
}

fn push_answer(text: &mut String, answer: Answer) -> anyhow::Result<()> {
    match answer {
        Answer::Entered => text.push_str("entered")?,
        Answer::Withdrawn(finding) => {
            text.push_str("withdrew")?;
            push_finding(text, finding)?;
        }
        Answer::Drawn(Drawing::Settled) => text.push_str("settled")?,
        Answer::Drawn(Drawing::Clash) => text.push_str("clash")?,
        Answer::Sought(Some(count)) => write!(text, "account {count}")?,
        Answer::Sought(None) => text.push_str("none")?,
        Answer::Weighed(weighing) => write!(text, "{weighing}")?,
    }
    Ok(())
}

// The answer to a visit, and the bytes of its part if the visit may write some.
fn push_made(
    text: &mut String,
    visit: Visit,
    answer: &Result<Answer, Fault>,
    part: &[u8],
) -> anyhow::Result<()> {
    match answer {
        Ok(answer) => push_answer(text, *answer)?,
        Err(fault) => write!(text, "{fault}")?,
    }
    if matches!(visit, Visit::Draw | Visit::Seek | Visit::Suppose(_)) {
        text.push_str(" [")?;
        for byte in part {
            write!(text, "{byte}")?;
        }
        text.push_str("]")?;
    }
    text.push_str("; ")?;
    Ok(())
}

// On what a statement of a row stands.
fn push_support(text: &mut String, answer: Result<Support, Fault>) -> anyhow::Result<()> {
    match answer {
        Ok(Support::ByRule(i)) => write!(text, "by rule {i}; ")?,
        Ok(Support::ByNone) => text.push_str("by no rule; ")?,
        Ok(Support::NotIn) => text.push_str("not in; ")?,
        Err(fault) => write!(text, "{fault}; ")?,
    }
    Ok(())
}

// The text of a report, with a stroke for the end of a line, and whether the bytes behind it are as they were.
fn push_report(text: &mut String, answer: Result<usize, Fault>, part: &[u8]) -> anyhow::Result<()> {
    let length = match answer {
        Ok(length) => length,
        Err(fault) => {
            write!(text, "{fault} ")?;
            0
        }
    };
    for byte in &part[..length.min(part.len())] {
        let letter = if *byte == b'\n' {
            '/'
        } else {
            char::from(*byte)
        };
        text.push(letter)?;
    }
    let stays = part.iter().skip(length).all(|byte| *byte == BEFORE);
    let rest = if stays { "stays" } else { "is changed" };
    write!(text, "({length} bytes, the rest {rest}); ")?;
    Ok(())
}

// The calls on the open sheet, one after the other; the same by one call that runs them all must come to the same.
fn tell_open<F: Family>(
    heap: Global,
    text: &mut String,
    tables: (&Table, &Table),
    family: &F,
    calls: &str,
) -> anyhow::Result<Sheet> {
    let (table, begun) = tables;
    let mut sheet = Sheet::begin(begun);
    let mut entries = Vec::new(heap);
    let mut made = String::new(heap);
    for word in calls.split_whitespace() {
        if let Some(question) = word.strip_prefix("why:") {
            let (statement, row) = read_question(heap, question)?;
            push_support(text, sheet.why(table, family, statement, &row))?;
            continue;
        }
        let entry = read_entry(heap, word, table.statements())?;
        let mut part = vec![in heap; BEFORE; entry.part.len()]?;
        let answer = make(&mut sheet, table, family, entry.visit, &mut part);
        push_made(text, entry.visit, &answer, &part)?;
        push_made(&mut made, entry.visit, &answer, &part)?;
        entries.push(entry)?;
    }
    if table.statements() == begun.statements() {
        let again = run_again(heap, table, family, &mut entries, &sheet)?;
        if again != Some(made) {
            text.push_str("BUT THE RUN DIFFERS; ")?;
        }
    }
    Ok(sheet)
}

// Runs the visits again by one call, and tells them; nothing, if the findings that stand then are others.
fn run_again<F: Family>(
    heap: Global,
    table: &Table,
    family: &F,
    entries: &mut Vec<Entry>,
    sheet: &Sheet,
) -> anyhow::Result<Option<String>> {
    let all = run(table, family, entries);
    let mut again = String::new(heap);
    for entry in &*entries {
        if let Some(answer) = &entry.answer {
            push_made(&mut again, entry.visit, answer, &entry.part)?;
        }
    }
    let same = all.findings() == sheet.findings();
    Ok(same.then_some(again))
}

// The calls on the signed sheet.
fn tell_signed<F: Family>(
    heap: Global,
    text: &mut String,
    table: &Table,
    family: &F,
    sheet: &SignedSheet,
    calls: &str,
) -> anyhow::Result<()> {
    for word in calls.split_whitespace() {
        let (verb, length) = read_length(word, REPORT_ROOM)?;
        if verb == "report" {
            let mut part = vec![in heap; BEFORE; length]?;
            let answer = sheet.report(table, family, &mut part);
            push_report(text, answer, &part)?;
            continue;
        }
        if let Some(question) = word.strip_prefix("why:") {
            let (statement, row) = read_question(heap, question)?;
            push_support(text, sheet.why(table, family, statement, &row))?;
            continue;
        }
        let mut entry = read_entry(heap, word, table.statements())?;
        let answer = make_signed(sheet, table, family, entry.visit, &mut entry.part)?;
        push_made(text, entry.visit, &answer, &entry.part)?;
    }
    Ok(())
}

fn read_bytes(heap: Global, words: &str) -> anyhow::Result<Vec<u8>> {
    let mut bytes = Vec::new(heap);
    for word in words.split_whitespace() {
        Word::parse(word)?.push_to(&mut bytes)?;
    }
    Ok(bytes)
}

// What comes of the calls, and what stands then.
fn told<F: Family>(heap: Global, family: &F, bytes: &str, calls: &str) -> anyhow::Result<String> {
    let (asked, begun) = bytes.split_once(" on ").unwrap_or((bytes, bytes));
    let (asked, begun) = (read_bytes(heap, asked)?, read_bytes(heap, begun)?);
    let (table, begun) = (Table::open(&asked), Table::open(&begun));
    let (open, signed) = calls.split_once("sign").unwrap_or((calls, ""));
    let mut text = String::new(heap);
    let sheet = tell_open(heap, &mut text, (&table, &begun), family, open)?;
    let sheet = sheet.sign();
    tell_signed(heap, &mut text, &table, family, &sheet, signed)?;
    text.push_str("standing")?;
    for finding in sheet.findings() {
        push_finding(&mut text, *finding)?;
    }
    Ok(text)
}

fn tell(rt: &HostRuntime, line: &str) -> anyhow::Result<()> {
    let heap = rt.alloc();
    let (case, calls) = line.split_once(" :").unwrap_or((line, ""));
    let (name, rest) = case.split_once(' ').unwrap_or((case, ""));
    let (family, bytes) = rest.split_once(' ').unwrap_or((rest, ""));
    let text = match family {
        "house" => told(heap, &House, bytes, calls)?,
        "bench" => told(heap, &Bench, bytes, calls)?,
        "presence" => told(heap, &Presence, bytes, calls)?,
        _ => return Err(anyhow!("a case names none of house, bench and presence")),
    };
    println!(rt; "{name}: {text}")?;
    Ok(())
}

// The loop over the lines stays in each of the programs that try cases: a function that takes `tell` would be longer.
fn main(rt: HostRuntime) -> anyhow::Result<()> {
    let text = std::io::read_to_string(rt.alloc(), rt.stdin())?;
    for line in text.lines() {
        tell(&rt, line)?;
    }
    Ok(())
}
