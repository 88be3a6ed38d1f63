ghost use Rattle.semantics.specs.AnswerSets.{AgreesWith};
ghost use Rattle.semantics.specs.Rows.{Precedes, ProperPart, has};
ghost use Rattle.semantics.specs.Tests.{confirms};
ghost use Rattle.semantics.specs.Theorems.{Antichain, NotedAgrees, Order, Supported};
ghost use Rattle.std.specs.Prelude.{◌≡◌, ◌≢◌, true, false, not, ◌||◌, ◌↔◌, IsTrue};

use super::Finding;

// Sets of statements as rows of marks: place q is true where statement q is in the set.

// The mark at a place; past the end, false. Stays apart from `has`, whose second promise would hide a wrong value.
fn place(row: &[bool], statement: usize) -> bool
    ensures { result ≡ has row.now statement }
{
    row.get(statement).copied().unwrap_or(false)
}

// Whether a row has a statement; past its end it has none. A statement of an answer set has a supporting rule.
pub fn has(row: &[bool], statement: usize) -> bool
    ensures value { result ≡ has row.now statement }
    ensures supported { result ≡ true → Supported row.now statement }
{
    place(row, statement)
}

// Whether two marks differ. Stays a function with a promise of its own, so that a wrong comparison is refused here, and
// not in the proof of the loop.
fn differ(x: bool, y: bool) -> bool
    ensures { (result ≡ true → x ≢ y) × (result ≡ false → x ≡ y) }
{
    x != y
}

// Whether a row comes before another: at the first difference it has the statement. The order is strict and total. Stays a
// loop: a chain that finds the first difference would have to ask there again which row has the statement.
pub fn precedes(row: &[bool], other: &[bool]) -> bool
    ensures decided { IsTrue result ↔ Precedes row.now other.now }
    ensures order { Order }
{
    for (q, x) in row.iter().enumerate() {
        if differ(*x, has(other, q)) {
            return *x;
        }
    }
    false
}

// Whether the whole has a statement if the part has it. Stays a function as `differ` does.
fn covers(whole: bool, part: bool) -> bool
    ensures { result ≡ (not part || whole) }
{
    !part || whole
}

// Whether a set is a proper part of another. No answer set of a program is a proper part of another one.
pub fn is_proper_part(part: &[bool], whole: &[bool]) -> bool
    ensures decided { IsTrue result ↔ ProperPart part.now whole.now }
    ensures antichain { Antichain part.now whole.now }
{
    part.len() == whole.len()
        && part != whole
        && part.iter().zip(whole).all(|(x, y)| covers(*y, *x))
}

// Whether a row has a statement that was found present, or lacks one that was found absent. Stays a function as `differ`
// does.
fn confirms(row: &[bool], finding: Finding) -> bool
    ensures { result ≡ confirms row.now finding }
{
    has(row, usize::from(finding.statement)) == finding.present
}

// Whether a row agrees with findings: it has what was found present, and lacks what was found absent.
pub fn agrees_with(findings: &[Finding], row: &[bool]) -> bool
    ensures decided { IsTrue result ↔ AgreesWith findings.now row.now }
    ensures noted { NotedAgrees }
{
    findings.iter().all(|finding| confirms(row, *finding))
}
