ghost use Rattle.daybook.specs.Days.{day_text, entries_left, entry_view, found_after, latest, line, line_text, lines_added, lines_noted, unless_sought, unmade_view, unmade_views, visits_added};
ghost use Rattle.daybook.specs.Requests.{request_read};
ghost use Rattle.daybook.specs.Rows.{found_seen};
ghost use Rattle.daybook.specs.declared.days.Content.TheVariants.{Visit as AVisit};
ghost use Rattle.std.specs.Prelude.{◌≡◌, ◌++◌, [], ◌∷◌, IfOk, None, OnOk, map, string_bytes};
ghost use Rattle.std.specs.Slice.Iter.{iter_rest};
ghost use Rattle.std.specs.Str.Lines.{lines};
ghost use Rattle.table.specs.Tables.{contents_of};

use super::reading::{Mistake, Request, read_request};
use super::reasons::{Found, Setting};
use super::telling::Told;
use family::Family;
use sheet::{Answer, Entry, Sheet, Visit};
use std::alloc::{AllocError, Global};
use std::slice::Iter;
use table::table::Table;

// What is in a line of a journal: a visit, whose entry is the next one of the day; on what a statement of the latest
// account stands; or a mistake.
#[derive(Clone, Copy, PartialEq, Eq, Debug)]
pub enum Content {
    Visit,
    Why(u16),
    Mistake(Mistake),
}

// A line of a journal that is not passed over, by its number from 1 on.
#[derive(Clone, Copy, PartialEq, Eq, Debug)]
pub struct Line {
    pub number: usize,
    pub content: Content,
}

// The lines of a journal with the entries of their visits.
#[derive(Drop)]
pub struct Day {
    pub lines: Vec<Line>,
    pub entries: Vec<Entry>,
}

impl Day {
    fn push_visit(
        &mut self,
        heap: Global,
        table: &Table,
        number: usize,
        visit: Visit,
    ) -> Result<(), AllocError>
        ensures lines { OnOk result (self.new.lines.items ≡ self.old.lines.items ++ line number AVisit ∷ []) }
        ensures entries { OnOk result (map entry_view self.new.entries.items
            ≡ map entry_view self.old.entries.items ++ unmade_view (contents_of table.now).names visit ∷ []) }
    {
        self.entries.push(unmade_entry(heap, table, visit)?)?;
        self.push_line(number, Content::Visit)
    }

    fn push_line(&mut self, number: usize, content: Content) -> Result<(), AllocError>
        ensures lines { OnOk result (self.new.lines.items ≡ self.old.lines.items ++ line number content ∷ []) }
        ensures entries { self.new.entries ≡ self.old.entries }
    {
        self.lines.push(Line { number, content })?;
        Ok(())
    }

    // Notes what a line of the journal says, unless it is passed over.
    fn note(
        &mut self,
        heap: Global,
        table: &Table,
        number: usize,
        line: &str,
    ) -> Result<(), AllocError>
        ensures lines { OnOk result (self.new.lines.items ≡ self.old.lines.items
            ++ lines_added number (request_read (contents_of table.now).names line.now)) }
        ensures entries { OnOk result (map entry_view self.new.entries.items ≡ map entry_view self.old.entries.items
            ++ map (unmade_view (contents_of table.now).names)
            (visits_added (request_read (contents_of table.now).names line.now))) }
    {
        match read_request(table, line) {
            Ok(None) => Ok(()),
            Ok(Some(Request::Visit(visit))) => self.push_visit(heap, table, number, visit),
            Ok(Some(Request::Why(statement))) => self.push_line(number, Content::Why(statement)),
            Err(mistake) => self.push_line(number, Content::Mistake(mistake)),
        }
    }

    // Reads a journal.
    pub fn read(heap: Global, table: &Table, text: &str) -> Result<Day, AllocError>
        ensures lines { IfOk result (λ day. day.lines.items
            ≡ lines_noted (contents_of table.now).names (lines text.now)) }
        ensures entries { IfOk result (λ day. map entry_view day.entries.items
            ≡ unmade_views (contents_of table.now).names (lines text.now)) }
    {
        let mut day = Day {
            lines: Vec::new(heap),
            entries: Vec::new(heap),
        };
        for (index, line) in text.lines().enumerate() {
            day.note(heap, table, index + 1, line)?;
        }
        Ok(day)
    }

    // The day as it is printed, when its visits have been made on the sheet.
    pub fn text<F: Family>(
        &self,
        heap: Global,
        table: &Table,
        family: &F,
        sheet: &Sheet,
    ) -> Result<String, AllocError>
        ensures { IfOk result (λ s. string_bytes s
            ≡ day_text (F.size family.now) (F.value family.now) table.now.bytes.now sheet.now.statements
            None self.now.lines.items self.now.entries.items) }
    {
        let setting = Setting {
            table,
            family,
            sheet,
        };
        let mut text = String::new(heap);
        let mut entries = self.entries.iter();
        let mut found = None;
        for line in &self.lines {
            found = setting.tell_line(heap, &mut text, *line, &mut entries, found)?;
        }
        Ok(text)
    }
}

// An account that was found, unless it was sought in vain since.
fn unless_sought(visit: Visit, found: Option<Found>) -> Option<Found>
    ensures { found_seen result ≡ unless_sought visit (found_seen found.entry) }
{
    match visit {
        Visit::Seek => None,
        _ => found,
    }
}

// The account that was found last: by the entry of this line, or before.
fn latest<'a>(number: usize, entry: &'a Entry, found: Option<Found<'a>>) -> Option<Found<'a>>
    ensures { found_seen result
        ≡ latest number entry.now.visit entry.now.part.items (found_seen found.entry) entry.now.answer }
{
    match entry.answer {
        Some(Ok(Answer::Sought(Some(_)))) => Some(Found {
            line: number,
            row: &entry.part,
        }),
        Some(Ok(Answer::Sought(None))) => unless_sought(entry.visit, found),
        _ => found,
    }
}

impl<F: Family> Setting<'_, F> {
    // Adds a line as it is printed: what came of the first entry that is left, if one is; on what a statement of the
    // latest account stands; or its mistake. It gives the account that is the latest then.
    fn tell_line<'a>(
        &self,
        heap: Global,
        text: &mut String,
        line: Line,
        entries: &mut Iter<'a, Entry>,
        found: Option<Found<'a>>,
    ) -> Result<Option<Found<'a>>, AllocError>
        ensures text { OnOk result (string_bytes text.new ≡ string_bytes text.old
            ++ line_text (F.size self.now.family.now) (F.value self.now.family.now) self.now.table.now.bytes.now
            self.now.sheet.now.statements line.number line.content (found_seen found.entry) (iter_rest entries.old)) }
        ensures entries { OnOk result (iter_rest entries.new ≡ entries_left line.content (iter_rest entries.old)) }
        ensures found { IfOk result (λ r. found_seen r
            ≡ found_after line.number line.content (found_seen found.entry) (iter_rest entries.old)) }
    {
        let number = line.number;
        match line.content {
            Content::Visit => {
                let Some(entry) = entries.next() else {
                    return Ok(found);
                };
                let table = *self.table;
                write!(
                    text,
                    "{}",
                    Told {
                        table,
                        number,
                        entry
                    }
                )?;
                return Ok(latest(number, entry, found));
            }
            Content::Why(statement) => self.push_why(heap, text, number, statement, found)?,
            Content::Mistake(mistake) => writeln!(text, "{number}. {mistake}")?,
        }
        Ok(found)
    }
}

// The entry of a visit that has not been made.
fn unmade_entry(heap: Global, table: &Table, visit: Visit) -> Result<Entry, AllocError>
    ensures { IfOk result (λ e. entry_view e ≡ unmade_view (contents_of table.now).names visit) }
{
    let part = vec![in heap; 0; usize::from(table.statements())]?;
    Ok(Entry {
        visit,
        part,
        answer: None,
    })
}

#[cfg(test)]
mod tests {
    use super::*;
    use house::House;
    use std::test::Fail;

    // No clause says that there is memory: this journal is read, and printed again.
    #[test]
    fn reads_and_prints(rt: HostRuntime) -> Result<(), Fail> {
        let table = Table::open(b"");
        let day = Day::read(
            rt.alloc(),
            &table,
            "draw\n# remark\n\n weigh a\npolish\r\nseek",
        )?;
        let text = day.text(rt.alloc(), &table, &House, &Sheet::begin(&table))?;
        let want = "1. draw: not asked yet\n\
            4. the table has no statement of this name\n\
            5. this is neither a visit nor a question\n\
            6. seek: not asked yet\n";
        assert_eq!(rt; text.as_str(), want);
        Ok(())
    }
}
