ghost use Rattle.rulesets.specs.Judging.{program_in};
ghost use Rattle.semantics.specs.AnswerSets.{AnswerSet};
ghost use Rattle.search.specs.declared.problem.Judgement.TheVariants.{Fails};
ghost use Rattle.std.specs.Prelude.{◌≡◌, unwrap_or};

use super::minimality::find_smaller;
use super::reducing::{Reduced, reduce};
use family::Family;
use marking::Marking;
use narrowing::{Mentions, Narrower, Work};
use rulesets::{Judge, Rulesets};
use search::{Effort, Judgement, Problem};

// The search for the answer sets of a table under a family: what narrows it, and how much is searched for smaller parts in
// the tests of rows.
#[derive(Drop)]
pub(crate) struct Seeker<'a, F> {
    narrower: Narrower<'a, F>,
    testing: &'a Effort,
}

impl<'a, F: Family> Seeker<'a, F> {
    pub(crate) fn new(
        rules: &'a Rulesets<'a>,
        mentions: &'a Mentions,
        family: &'a F,
        testing: &'a Effort,
    ) -> Seeker<'a, F>
        ensures table { result.narrower.judge.rules.now ≡ rules.now }
        ensures family { result.narrower.judge.family.now ≡ family.now }
    {
        let judge = Judge { rules, family };
        Seeker {
            narrower: Narrower { judge, mentions },
            testing,
        }
    }
}

impl<F: Family> Problem for Seeker<'_, F> {
    type Work = Work;

    ghost size = { λ a. (program_in a.narrower.judge).statements };

    ghost fits = { λ a s. AnswerSet (F.value a.narrower.judge.family.now) (program_in a.narrower.judge) s };

    fn statements(&self) -> u16 {
        self.narrower.judge.rules.statements()
    }

    fn start(&self) -> Work {
        let rules = self.narrower.judge.rules;
        Work::all(rules.statements(), rules.rules())
    }

    fn go_back(&self, work: &mut Work, reached: usize) {
        work.go_back(reached);
    }

    fn nogood(&self, work: &mut Work, marking: &Marking, trail: &[u16]) -> Option<Marking> {
        self.narrower.nogood(work, marking, trail)
    }

    // Whether it obeys itself, and no proper part of it obeys against it.
    fn test(&self, row: &Marking) -> Judgement {
        let reduct = match reduce(&self.narrower.judge, row) {
            Reduced::To(reduct) => reduct,
            Reduced::Broken(i) => return failed(row, self.narrower.broken_nogood(row, i)),
        };
        let Some(removed) = find_smaller(
            self.narrower.judge.rules,
            self.narrower.mentions,
            row,
            &reduct,
            self.testing,
        ) else {
            return Judgement::Fits;
        };
        failed(row, self.narrower.removal_nogood(row, removed.present()))
    }
}

// A row does not fit: for this reason, or where none is known for it all.
fn failed(row: &Marking, reason: Option<Marking>) -> Judgement
    ensures { result ≡ Fails (unwrap_or reason row.now) }
{
    Judgement::Fails(reason.unwrap_or(*row))
}
