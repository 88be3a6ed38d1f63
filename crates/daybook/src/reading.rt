ghost use Rattle.daybook.specs.Requests.{finding_of, is_remark, known_statement, mistake_text, request_alone, request_if_any, request_of, request_of_finding, request_of_statement, request_read, statement_of};
ghost use Rattle.daybook.specs.Words.{words_of};
ghost use Rattle.notation.specs.Text.{name_text};
ghost use Rattle.std.specs.Option.{some_prefix};
ghost use Rattle.std.specs.Prelude.{◌≡◌, Some, bytes_eq, map, take};
ghost use Rattle.table.specs.Tables.{contents_of};

use semantics::Finding;
use sheet::Visit;
use std::error::Error;
use std::fmt;
use table::table::Table;

// What a line of a journal asks for: a visit to the sheet, or on what a statement of the latest account stands.
#[derive(Clone, Copy, PartialEq, Eq, Debug)]
pub enum Request {
    Visit(Visit),
    Why(u16),
}

// What is wrong with a line of a journal.
#[derive(Clone, Copy, PartialEq, Eq, Debug)]
pub enum Mistake {
    NoRequest,
    UnknownName,
}

impl fmt::Display for Mistake {
    ghost output = { λ mistake. Some (mistake_text mistake) };

    fn fmt<W: fmt::Write>(&self, f: &mut fmt::Formatter<W>) -> fmt::Result {
        f.write_str(match self {
            Mistake::NoRequest => "this is neither a visit nor a question",
            Mistake::UnknownName => "the table has no statement of this name",
        })
    }
}

impl Error for Mistake {}

fn is_named(table: &Table, statement: u16, name: &str) -> bool
    ensures { result ≡ bytes_eq (name_text (contents_of table.now).names statement) name.now }
{
    table.name(statement) == name
}

// The statement of the table with this name, the first one if there were several.
pub fn find_statement(table: &Table, name: &str) -> Option<u16>
    ensures { result ≡ statement_of (contents_of table.now).names name.now }
{
    (0..table.statements()).find(|statement| is_named(table, *statement, name))
}

fn known_statement(table: &Table, name: &str) -> Result<u16, Mistake>
    ensures { result ≡ known_statement (contents_of table.now).names name.now }
{
    find_statement(table, name).ok_or(Mistake::UnknownName)
}

// The finding that the statement of this name is in, or out.
fn read_finding(table: &Table, name: &str, state: &str) -> Result<Finding, Mistake>
    ensures { result ≡ finding_of (contents_of table.now).names name.now state.now }
{
    let present = match state {
        "in" => true,
        "out" => false,
        _ => return Err(Mistake::NoRequest),
    };
    let statement = known_statement(table, name)?;
    Ok(Finding { statement, present })
}

// The first words of a line, one more than the longest request has.
fn first_words(line: &str) -> [Option<&str>; 4]
    ensures { map (λ word. word.now) (some_prefix result) ≡ take 4 (words_of line.now) }
{
    let mut words = line.split_ascii_whitespace();
    [words.next(), words.next(), words.next(), words.next()]
}

fn request_alone(verb: &str) -> Result<Request, Mistake>
    ensures { result ≡ request_alone verb.now }
{
    match verb {
        "withdraw" => Ok(Request::Visit(Visit::Withdraw)),
        "draw" => Ok(Request::Visit(Visit::Draw)),
        "seek" => Ok(Request::Visit(Visit::Seek)),
        _ => Err(Mistake::NoRequest),
    }
}

fn request_of_statement(table: &Table, verb: &str, name: &str) -> Result<Request, Mistake>
    ensures { result ≡ request_of_statement (contents_of table.now).names verb.now name.now }
{
    match verb {
        "weigh" => Ok(Request::Visit(Visit::Weigh(known_statement(table, name)?))),
        "why" => Ok(Request::Why(known_statement(table, name)?)),
        _ => Err(Mistake::NoRequest),
    }
}

fn request_of_finding(
    table: &Table,
    verb: &str,
    name: &str,
    state: &str,
) -> Result<Request, Mistake>
    ensures { result ≡ request_of_finding (contents_of table.now).names verb.now name.now state.now }
{
    match verb {
        "enter" => Ok(Request::Visit(Visit::Enter(read_finding(table, name, state)?))),
        "suppose" => Ok(Request::Visit(Visit::Suppose(read_finding(table, name, state)?))),
        _ => Err(Mistake::NoRequest),
    }
}

// What is asked for in these words.
fn request_of(table: &Table, words: [Option<&str>; 4]) -> Result<Request, Mistake>
    ensures { result ≡ request_of (contents_of table.now).names (map (λ word. word.now) (some_prefix words.entry)) }
{
    match words {
        [Some(verb), None, ..] => request_alone(verb),
        [Some(verb), Some(name), None, _] => request_of_statement(table, verb, name),
        [Some(verb), Some(name), Some(state), None] => request_of_finding(table, verb, name, state),
        _ => Err(Mistake::NoRequest),
    }
}

// None where there are no words.
fn request_if_any(table: &Table, words: [Option<&str>; 4]) -> Result<Option<Request>, Mistake>
    ensures { result
        ≡ request_if_any (contents_of table.now).names (map (λ word. word.now) (some_prefix words.entry)) }
{
    match words {
        [None, ..] => Ok(None),
        _ => request_of(table, words).map(Some),
    }
}

fn is_remark(line: &str) -> bool
    ensures { result ≡ is_remark line.now }
{
    line.starts_with('#')
}

// What a line of a journal asks for; nothing where the line is passed over, as a remark or one with no words is.
#[tactic(auto, using(crate::proofs::Cutting::four_tell))]
pub fn read_request(table: &Table, line: &str) -> Result<Option<Request>, Mistake>
    ensures { result ≡ request_read (contents_of table.now).names line.now }
{
    if is_remark(line) {
        return Ok(None);
    }
    request_if_any(table, first_words(line))
}
