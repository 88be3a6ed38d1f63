// Drawing straight from its definition: one open statement is marked at a time, by any of the four steps that wants it,
// and the dice say which. That is one way of many, and a clash is told of this way alone: that every way ends alike
// rests on the theorem that the order of the steps does not matter.
use super::model::{Aggregate, Program, Rule};
use super::random::Random;
use super::rows::{Row, row_count};
use super::values::Reckoning;
use semantics::Finding;
use std::alloc::{AllocError, Global};

#[derive(Clone, Copy, PartialEq, Eq, Debug)]
pub(crate) enum Mark {
    Open,
    In,
    Out,
}

// A statement with the mark that a step wants for it.
#[derive(Clone, Copy)]
struct Wish {
    statement: u16,
    mark: Mark,
}

const NO_WISH: Wish = Wish {
    statement: u16::MAX,
    mark: Mark::Open,
};

// What the members that are open can still make of an aggregate.
#[derive(Clone, Copy, PartialEq, Eq)]
enum Verdict {
    Certain,
    Impossible,
    Undecided,
}

// Ranges up to this are gone through number by number.
const SHORT: i64 = 100;

fn all_numbers(heap: Global, least: i64, greatest: i64) -> Result<Vec<i64>, AllocError> {
    let mut numbers = Vec::new(heap);
    for number in least..greatest {
        numbers.push(number)?;
    }
    numbers.push(greatest)?;
    Ok(numbers)
}

// The numbers from least to greatest; of a long range only the ends and what is next to the bound, since elsewhere no
// relation to the bound changes.
fn telling_numbers(
    heap: Global,
    bound: i64,
    least: i64,
    greatest: i64,
) -> Result<Vec<i64>, AllocError> {
    if greatest.saturating_sub(least) <= SHORT {
        return all_numbers(heap, least, greatest);
    }
    let mut numbers = Vec::new(heap);
    let near = [
        least,
        greatest,
        bound.saturating_sub(1),
        bound,
        bound.saturating_add(1),
    ];
    for number in near {
        if least <= number && number <= greatest {
            numbers.push(number)?;
        }
    }
    Ok(numbers)
}

// A marking of a program's statements.
#[derive(Drop)]
struct Board<'a> {
    heap: Global,
    reckoning: Reckoning,
    rules: &'a [Rule],
    marks: Vec<Mark>,
}

impl Board<'_> {
    fn mark(&self, statement: u16) -> Mark {
        let mark = self.marks.get(usize::from(statement));
        mark.copied().unwrap_or(Mark::Open)
    }

    fn set(&mut self, wish: Wish) {
        let place = usize::from(wish.statement);
        if place < self.marks.len() {
            self.marks[place] = wish.mark;
        }
    }

    fn weights(&self, aggregate: &Aggregate, mark: Mark) -> Result<Vec<i32>, AllocError> {
        let mut weights = Vec::new(self.heap);
        for member in &aggregate.members {
            if self.mark(member.statement) == mark {
                weights.push(member.weight)?;
            }
        }
        Ok(weights)
    }

    // The bag of all members that are in and of those open ones that are chosen.
    fn bag(&self, aggregate: &Aggregate, choice: Row) -> Result<Vec<i32>, AllocError> {
        let mut bag = self.weights(aggregate, Mark::In)?;
        let open = self.weights(aggregate, Mark::Open)?;
        for (number, weight) in open.iter().enumerate() {
            if choice.has(u16::try_from(number).unwrap_or(u16::MAX)) {
                bag.push(*weight)?;
            }
        }
        Ok(bag)
    }

    // What the aggregate comes to, for each choice of open members.
    fn values(&self, aggregate: &Aggregate) -> Result<Vec<Option<i64>>, AllocError> {
        let mut values = Vec::new(self.heap);
        let open = self.weights(aggregate, Mark::Open)?.len();
        for marks in 0..row_count(u16::try_from(open).unwrap_or(0)) {
            let bag = self.bag(aggregate, Row { marks })?;
            values.push(self.reckoning.value(aggregate.kind, &bag))?;
        }
        Ok(values)
    }

    fn judge(&self, aggregate: &Aggregate) -> Result<Verdict, AllocError> {
        let values = self.values(aggregate)?;
        let (mut least, mut greatest) = (i64::MAX, i64::MIN);
        for number in values.iter().copied().flatten() {
            least = least.min(number);
            greatest = greatest.max(number);
        }
        if greatest < least {
            return Ok(Verdict::Impossible);
        }
        let bound = i64::from(aggregate.bound);
        let numbers = telling_numbers(self.heap, bound, least, greatest)?;
        let stands = |number: &i64| aggregate.relation.holds(*number, bound);
        if !numbers.iter().any(stands) {
            return Ok(Verdict::Impossible);
        }
        let always = values.iter().all(|value| value.is_some());
        if always && numbers.iter().all(stands) {
            return Ok(Verdict::Certain);
        }
        Ok(Verdict::Undecided)
    }

    fn has_aggregate(&self, rule: &Rule, verdict: Verdict) -> Result<bool, AllocError> {
        for aggregate in &rule.aggregates {
            if self.judge(aggregate)? == verdict {
                return Ok(true);
            }
        }
        Ok(false)
    }

    fn are_certain(&self, aggregates: &[Aggregate]) -> Result<bool, AllocError> {
        for aggregate in aggregates {
            if self.judge(aggregate)? != Verdict::Certain {
                return Ok(false);
            }
        }
        Ok(true)
    }

    // Whether all of these statements but one have the mark.
    fn all_but(&self, statements: &[u16], but: Option<u16>, mark: Mark) -> bool {
        statements.iter().all(|statement| Some(*statement) == but || self.mark(*statement) == mark)
    }

    fn is_refuted(&self, rule: &Rule) -> Result<bool, AllocError> {
        let by_positive = rule.positive.iter().any(|q| self.mark(*q) == Mark::Out);
        let by_negative = rule.negative.iter().any(|q| self.mark(*q) == Mark::In);
        Ok(by_positive || by_negative || self.has_aggregate(rule, Verdict::Impossible)?)
    }

    // Whether the body is certain, but for one positive or one negative where such are named.
    fn is_certain_but_for(
        &self,
        rule: &Rule,
        positive: Option<u16>,
        negative: Option<u16>,
    ) -> Result<bool, AllocError> {
        let positives = self.all_but(&rule.positive, positive, Mark::In);
        let negatives = self.all_but(&rule.negative, negative, Mark::Out);
        Ok(positives && negatives && self.are_certain(&rule.aggregates)?)
    }

    fn is_certain(&self, rule: &Rule) -> Result<bool, AllocError> {
        self.is_certain_but_for(rule, None, None)
    }

    // The first step: all head statements but one are out, and the body is certain.
    fn wish_head(&self, rule: &Rule, wishes: &mut Vec<Wish>) -> Result<(), AllocError> {
        if !self.is_certain(rule)? {
            return Ok(());
        }
        for statement in &rule.head {
            if self.all_but(&rule.head, Some(*statement), Mark::Out) {
                let statement = *statement;
                let mark = Mark::In;
                wishes.push(Wish { statement, mark })?;
            }
        }
        Ok(())
    }

    fn push_wishes(
        &self,
        statements: &[u16],
        but: Option<u16>,
        mark: Mark,
        wishes: &mut Vec<Wish>,
    ) -> Result<(), AllocError> {
        for statement in statements {
            let statement = *statement;
            if Some(statement) != but {
                wishes.push(Wish { statement, mark })?;
            }
        }
        Ok(())
    }

    // The second step: a statement is in, and this is the one rule that is left for it.
    fn wish_body(
        &self,
        rule: &Rule,
        statement: u16,
        wishes: &mut Vec<Wish>,
    ) -> Result<(), AllocError> {
        self.push_wishes(&rule.head, Some(statement), Mark::Out, wishes)?;
        self.push_wishes(&rule.positive, None, Mark::In, wishes)?;
        self.push_wishes(&rule.negative, None, Mark::Out, wishes)
    }

    // The third step for positives: all head statements are out, and the body is certain but for this one.
    fn wish_positives(&self, rule: &Rule, wishes: &mut Vec<Wish>) -> Result<(), AllocError> {
        for statement in &rule.positive {
            let statement = *statement;
            let is_open = self.mark(statement) == Mark::Open;
            if is_open && self.is_certain_but_for(rule, Some(statement), None)? {
                let mark = Mark::Out;
                wishes.push(Wish { statement, mark })?;
            }
        }
        Ok(())
    }

    // The same for negatives.
    fn wish_negatives(&self, rule: &Rule, wishes: &mut Vec<Wish>) -> Result<(), AllocError> {
        for statement in &rule.negative {
            let statement = *statement;
            let is_open = self.mark(statement) == Mark::Open;
            if is_open && self.is_certain_but_for(rule, None, Some(statement))? {
                let mark = Mark::In;
                wishes.push(Wish { statement, mark })?;
            }
        }
        Ok(())
    }

    // The rules that are left for a statement: those that have it in the head and are not refuted.
    fn rules_left(&self, statement: u16) -> Result<Vec<&Rule>, AllocError> {
        let mut left = Vec::new(self.heap);
        for rule in self.rules {
            if rule.head.contains(&statement) && !self.is_refuted(rule)? {
                left.push(rule)?;
            }
        }
        Ok(left)
    }

    // The second and the fourth step, which begin with a statement.
    fn wish_of(&self, statement: u16, wishes: &mut Vec<Wish>) -> Result<(), AllocError> {
        let left = self.rules_left(statement)?;
        match left.as_slice() {
            [] => {
                let mark = Mark::Out;
                wishes.push(Wish { statement, mark })?;
            }
            [rule] if self.mark(statement) == Mark::In => {
                self.wish_body(rule, statement, wishes)?;
            }
            _ => {}
        }
        Ok(())
    }

    // The first and the third step, which begin with a rule.
    fn wish_by(&self, rule: &Rule, wishes: &mut Vec<Wish>) -> Result<(), AllocError> {
        self.wish_head(rule, wishes)?;
        if self.all_but(&rule.head, None, Mark::Out) {
            self.wish_positives(rule, wishes)?;
            self.wish_negatives(rule, wishes)?;
        }
        Ok(())
    }

    fn wishes_of_rules(&self) -> Result<Vec<Wish>, AllocError> {
        let mut wishes = Vec::new(self.heap);
        for rule in self.rules {
            self.wish_by(rule, &mut wishes)?;
        }
        Ok(wishes)
    }

    // What any step wants.
    fn wishes(&self, statements: u16) -> Result<Vec<Wish>, AllocError> {
        let mut wishes = self.wishes_of_rules()?;
        for statement in 0..statements {
            self.wish_of(statement, &mut wishes)?;
        }
        Ok(wishes)
    }

    // The wishes that a step can fulfil: those of open statements.
    fn steps(&self, wishes: &[Wish]) -> Result<Vec<Wish>, AllocError> {
        let mut steps = Vec::new(self.heap);
        for wish in wishes {
            if self.mark(wish.statement) == Mark::Open {
                steps.push(*wish)?;
            }
        }
        Ok(steps)
    }

    // Whether some rule has a certain body, and no head statement that is not out.
    fn is_broken(&self) -> Result<bool, AllocError> {
        for rule in self.rules {
            let all_out = self.all_but(&rule.head, None, Mark::Out);
            if all_out && self.is_certain(rule)? {
                return Ok(true);
            }
        }
        Ok(false)
    }

    // Whether the marking is settled, where no step can be made.
    fn is_settled(&self, wishes: &[Wish]) -> Result<bool, AllocError> {
        let kept = wishes
            .iter()
            .all(|wish| self.mark(wish.statement) == wish.mark);
        Ok(kept && !self.is_broken()?)
    }
}

// The marking of findings, with all else open; of two findings of one statement the first counts.
fn noted(heap: Global, statements: usize, findings: &[Finding]) -> Result<Vec<Mark>, AllocError> {
    let mut marks = vec![in heap; Mark::Open; statements]?;
    for finding in findings {
        let place = usize::from(finding.statement);
        if place < marks.len() && marks[place] == Mark::Open {
            marks[place] = if finding.present { Mark::In } else { Mark::Out };
        }
    }
    Ok(marks)
}

// The settled marking that steps reach from findings, or none where there is a clash.
pub(crate) fn drawn(
    heap: Global,
    random: &mut Random,
    reckoning: Reckoning,
    program: &Program,
    findings: &[Finding],
) -> Result<Option<Vec<Mark>>, AllocError> {
    let statements = program.statements();
    let mut board = Board {
        heap,
        reckoning,
        rules: &program.rules,
        marks: noted(heap, usize::from(statements), findings)?,
    };
    // Each turn marks an open statement, so that there is one turn more than can be needed.
    for _ in 0..=statements {
        let wishes = board.wishes(statements)?;
        let steps = board.steps(&wishes)?;
        if steps.is_empty() {
            let settled = board.is_settled(&wishes)?;
            return Ok(if settled { Some(board.marks) } else { None });
        }
        board.set(random.pick(&steps, NO_WISH));
    }
    Ok(None)
}
