// One trial: the bytes of a random table and damaged ones are checked, a random journal is kept on a sheet, call by
// call and by one run, and the sheet is signed and asked again. Each answer, each byte of a part and what stands is
// held against the plain reading.
use super::damage::damaged;
use super::engine::{call_of, make, make_signed, told_of_support};
use super::ledger::{Asked, Ledger};
use super::random::Random;
use super::requests::{
    Request, any_byte, any_request, any_requests, any_row, any_statement, any_table, report_room,
};
use super::setting::{Inquiry, Outcome, Pair, Setting, SignedPair, push_hex, push_journal};
use super::tally::{Call, Tally};
use super::told::Told;
use super::values::Reckoning;
use family::Family;
use sheet::{Entry, Sheet, run};
use std::alloc::{AllocError, Global};
use table::table::Table;

// All trials, with the number of the one that is being made.
#[derive(Drop)]
pub(crate) struct Trials {
    pub heap: Global,
    pub seed: u64,
    pub number: u64,
    pub tally: Tally,
}

impl Trials {
    // The first line of a difference.
    pub(crate) fn heading(&self, call: Call) -> Result<String, AllocError> {
        let (number, seed) = (self.number, self.seed);
        format!(in self.heap; "trial {number} of seed {seed}, {call}")
    }

    // A difference, with all that it takes to make the call again.
    fn text_of<F: Family>(
        &self,
        inquiry: Inquiry,
        want: &Outcome,
        got: &Outcome,
        setting: &Setting<F>,
    ) -> Result<String, AllocError> {
        let mut text = self.heading(inquiry.call)?;
        inquiry.push_to(&mut text)?;
        text.push_str("\nwanted ")?;
        want.push_to(&mut text)?;
        text.push_str("\ngiven  ")?;
        got.push_to(&mut text)?;
        text.push_str("\nbytes  ")?;
        push_hex(&mut text, &setting.tables.known(inquiry.which).bytes)?;
        push_journal(&mut text, setting.begun, setting.requests)?;
        Ok(text)
    }

    // Counts a call, and keeps the text of a difference.
    fn compare<F: Family>(
        &mut self,
        inquiry: Inquiry,
        want: &Outcome,
        got: &Outcome,
        setting: &Setting<F>,
    ) -> Result<(), AllocError> {
        let agrees = want.agrees(got);
        self.tally.count(inquiry.call, want.told, agrees)?;
        if !agrees && self.tally.has_room() {
            let text = self.text_of(inquiry, want, got, setting)?;
            self.tally.differences.push(text)?;
        }
        Ok(())
    }

    // Makes one visit on a sheet and on its ledger.
    fn play_one<F: Family>(
        &mut self,
        random: &mut Random,
        setting: &Setting<F>,
        request: Request,
        pair: &mut Pair,
    ) -> Result<(), AllocError> {
        let heap = self.heap;
        let known = setting.tables.known(request.which);
        let mut want = vec![in heap; request.fill; request.room]?;
        let mut got = vec![in heap; request.fill; request.room]?;
        let visit = request.visit;
        let wanted = pair.ledger.visit(heap, random, known, visit, &mut want)?;
        let table = Table::open(&known.bytes);
        let answer = make(&mut pair.sheet, &table, setting.engine, visit, &mut got);
        let want = pair.wanted(wanted, &want);
        let got = pair.given(Told::of(&answer), &got);
        let inquiry = Inquiry::new(call_of(visit), Asked::Visit(visit), request.which);
        self.compare(inquiry, &want, &got, setting)
    }

    // Makes all visits of the journal, each by its own call.
    fn play_calls<F: Family>(
        &mut self,
        random: &mut Random,
        setting: &Setting<F>,
    ) -> Result<Pair, AllocError> {
        let known = setting.tables.known(setting.begun);
        let mut pair = Pair {
            sheet: Sheet::begin(&Table::open(&known.bytes)),
            ledger: Ledger::begun(self.heap, known),
        };
        for request in setting.requests {
            self.play_one(random, setting, *request, &mut pair)?;
        }
        Ok(pair)
    }

    // Holds what a run made of one visit against the ledger.
    fn compare_entry<F: Family>(
        &mut self,
        random: &mut Random,
        setting: &Setting<F>,
        entry: &Entry,
        request: Request,
        ledger: &mut Ledger,
    ) -> Result<(), AllocError> {
        let heap = self.heap;
        let mut part = vec![in heap; request.fill; request.room]?;
        let known = setting.tables.known(setting.begun);
        let visit = request.visit;
        let wanted = ledger.visit(heap, random, known, visit, &mut part)?;
        let told = match &entry.answer {
            Some(answer) => Told::of(answer),
            None => Told::Unanswered,
        };
        let want = Outcome {
            told: wanted,
            part: &part,
            findings: &[],
            statements: 0,
        };
        let got = Outcome {
            told,
            part: &entry.part,
            findings: &[],
            statements: 0,
        };
        let inquiry = Inquiry::new(Call::Run, Asked::Visit(visit), setting.begun);
        self.compare(inquiry, &want, &got, setting)
    }

    // Makes all visits of the journal by one run, which asks all of them of the table on which the sheet is begun.
    fn play_run<F: Family>(
        &mut self,
        random: &mut Random,
        setting: &Setting<F>,
    ) -> Result<(), AllocError> {
        let heap = self.heap;
        let mut entries = entries(heap, setting.requests)?;
        let known = setting.tables.known(setting.begun);
        let sheet = run(&Table::open(&known.bytes), setting.engine, &mut entries);
        let mut ledger = Ledger::begun(heap, known);
        for (entry, request) in entries.iter().zip(setting.requests) {
            self.compare_entry(random, setting, entry, *request, &mut ledger)?;
        }
        let want = Outcome {
            told: Told::Standing(ledger.findings.len()),
            part: &[],
            findings: &ledger.findings,
            statements: ledger.statements,
        };
        let got = Outcome {
            told: Told::Standing(sheet.findings().len()),
            part: &[],
            findings: sheet.findings(),
            statements: sheet.statements(),
        };
        let inquiry = Inquiry {
            call: Call::Stands,
            asked: None,
            which: setting.begun,
        };
        self.compare(inquiry, &want, &got, setting)
    }

    // Makes one visit on a signed sheet, if it allows it.
    fn play_signed<F: Family>(
        &mut self,
        random: &mut Random,
        setting: &Setting<F>,
        pair: &mut SignedPair,
    ) -> Result<(), AllocError> {
        let heap = self.heap;
        let request = any_request(random, &setting.tables.own);
        let known = setting.tables.known(request.which);
        let table = Table::open(&known.bytes);
        let mut got = vec![in heap; request.fill; request.room]?;
        let visit = request.visit;
        let made = make_signed(&pair.sheet, &table, setting.engine, visit, &mut got);
        let Some((call, told)) = made else {
            return Ok(());
        };
        let mut want = vec![in heap; request.fill; request.room]?;
        let wanted = pair.ledger.visit(heap, random, known, visit, &mut want)?;
        let want = pair.wanted(wanted, &want);
        let got = pair.given(told, &got);
        let inquiry = Inquiry::new(call, Asked::Visit(visit), request.which);
        self.compare(inquiry, &want, &got, setting)
    }

    // Asks a signed sheet for its report.
    fn play_report<F: Family>(
        &mut self,
        random: &mut Random,
        setting: &Setting<F>,
        pair: &SignedPair,
    ) -> Result<(), AllocError> {
        let heap = self.heap;
        let which = any_table(random);
        let known = setting.tables.known(which);
        let (room, fill) = (report_room(random), any_byte(random));
        let mut want = vec![in heap; fill; room]?;
        let mut got = vec![in heap; fill; room]?;
        let wanted = pair.ledger.report(heap, known, &mut want)?;
        let table = Table::open(&known.bytes);
        let answer = pair.sheet.report(&table, setting.engine, &mut got);
        let told = match answer {
            Ok(length) => Told::Reported(length),
            Err(fault) => Told::of_fault(fault),
        };
        let want = pair.wanted(wanted, &want);
        let got = pair.given(told, &got);
        let inquiry = Inquiry::new(Call::Report, Asked::Report, which);
        self.compare(inquiry, &want, &got, setting)
    }

    // Asks an open sheet why a statement is in some row.
    fn play_why<F: Family>(
        &mut self,
        random: &mut Random,
        setting: &Setting<F>,
        pair: &Pair,
    ) -> Result<(), AllocError> {
        let which = any_table(random);
        let known = setting.tables.known(which);
        let statement = any_statement(random, known);
        let row = any_row(self.heap, random, known)?;
        let wanted = pair.ledger.why(self.heap, known, statement, &row)?;
        let table = Table::open(&known.bytes);
        let answer = pair.sheet.why(&table, setting.engine, statement, &row);
        let want = pair.wanted(wanted, &row);
        let got = pair.given(told_of_support(answer), &row);
        let inquiry = Inquiry::new(Call::Why, Asked::Why(statement), which);
        self.compare(inquiry, &want, &got, setting)
    }

    // Asks a signed sheet why a statement is in some row.
    fn play_signed_why<F: Family>(
        &mut self,
        random: &mut Random,
        setting: &Setting<F>,
        pair: &SignedPair,
    ) -> Result<(), AllocError> {
        let which = any_table(random);
        let known = setting.tables.known(which);
        let statement = any_statement(random, known);
        let row = any_row(self.heap, random, known)?;
        let wanted = pair.ledger.why(self.heap, known, statement, &row)?;
        let table = Table::open(&known.bytes);
        let answer = pair.sheet.why(&table, setting.engine, statement, &row);
        let want = pair.wanted(wanted, &row);
        let got = pair.given(told_of_support(answer), &row);
        let inquiry = Inquiry::new(Call::SignedWhy, Asked::Why(statement), which);
        self.compare(inquiry, &want, &got, setting)
    }

    // One trial under a family.
    pub(crate) fn make<F: Family>(
        &mut self,
        random: &mut Random,
        engine: &F,
        reckoning: Reckoning,
    ) -> Result<(), AllocError> {
        let tables = self.tables(random, reckoning)?;
        let bytes = damaged(self.heap, random, &tables.own.bytes)?;
        self.check_damaged(&bytes)?;
        let begun = any_table(random);
        let requests = any_requests(self.heap, random, &tables.own)?;
        let setting = Setting {
            tables: &tables,
            engine,
            begun,
            requests: &requests,
        };
        let pair = self.play_calls(random, &setting)?;
        self.play_run(random, &setting)?;
        self.play_why(random, &setting, &pair)?;
        let mut pair = pair.sign();
        for _ in 0..4 {
            self.play_signed(random, &setting, &mut pair)?;
        }
        self.play_signed_why(random, &setting, &pair)?;
        self.play_report(random, &setting, &pair)
    }
}

// The visits of a journal with their parts, not yet made.
fn entries(heap: Global, requests: &[Request]) -> Result<Vec<Entry>, AllocError> {
    let mut entries = Vec::new(heap);
    for request in requests {
        entries.push(Entry {
            visit: request.visit,
            part: vec![in heap; request.fill; request.room]?,
            answer: None,
        })?;
    }
    Ok(entries)
}
