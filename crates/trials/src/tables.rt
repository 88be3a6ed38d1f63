// The bytes of a trial: random tables and damaged copies, each held against the plain reading of the check.
use super::damage::damaged;
use super::engine::told_of_check;
use super::faults::first_fault;
use super::generator::random_program;
use super::known::Known;
use super::random::Random;
use super::reader::{read_program, sizes};
use super::setting::{Tables, push_hex};
use super::tally::Call;
use super::told::Told;
use super::trial::Trials;
use super::values::Reckoning;
use super::writer::table_bytes;
use format::check::check;
use std::alloc::AllocError;
use table::table::Table;

// The most statements of damaged bytes that are read and asked of.
const MOST_READ: usize = 8;

// What is said of bytes: by the check alone, and by the table that is opened on them.
#[derive(Clone, Copy, PartialEq, Eq, Debug)]
struct Checked {
    check: Told,
    counts: Told,
    is_opened: bool,
}

impl Checked {
    fn wanted(told: Told) -> Checked {
        Checked {
            check: told,
            counts: told,
            is_opened: matches!(told, Told::Accepted(_)),
        }
    }

    fn given(bytes: &[u8]) -> Checked {
        let table = Table::open(bytes);
        Checked {
            check: told_of_check(check(bytes)),
            counts: told_of_check(table.counts()),
            is_opened: table.is_opened(),
        }
    }
}

impl Trials {
    // Holds what the check says of bytes, alone and on opening, against what is wanted.
    fn compare_check(&mut self, call: Call, bytes: &[u8], told: Told) -> Result<(), AllocError> {
        let want = Checked::wanted(told);
        let got = Checked::given(bytes);
        let agrees = want == got;
        self.tally.count(call, told, agrees)?;
        if !agrees && self.tally.has_room() {
            let mut text = self.heading(call)?;
            write!(text, "\nwanted {want:?}\ngiven  {got:?}\nbytes  ")?;
            push_hex(&mut text, bytes)?;
            self.tally.differences.push(text)?;
        }
        Ok(())
    }

    // Checks a table without faults, whose counts are known.
    fn check_table(&mut self, known: &Known) -> Result<(), AllocError> {
        let told = Told::Accepted(known.program.sizes());
        self.compare_check(Call::Check, &known.bytes, told)
    }

    // Checks damaged bytes, and tells whether they have no fault.
    pub(crate) fn check_damaged(&mut self, bytes: &[u8]) -> Result<bool, AllocError> {
        let fault = first_fault(self.heap, bytes)?;
        let told = match fault {
            Some((number, place)) => Told::Refused(number, place),
            None => Told::Accepted(sizes(bytes)),
        };
        self.compare_check(Call::CheckDamaged, bytes, told)?;
        Ok(fault.is_none())
    }

    // A table of its own.
    fn fresh(&mut self, random: &mut Random, reckoning: Reckoning) -> Result<Known, AllocError> {
        let program = random_program(self.heap, random, reckoning)?;
        let bytes = table_bytes(self.heap, &program)?;
        let known = Known::opened(self.heap, reckoning, program, bytes)?;
        self.check_table(&known)?;
        Ok(known)
    }

    // The tables of a trial. Damaged bytes are the other table if they have no fault and few statements, and the bytes
    // that are no table if they have one.
    pub(crate) fn tables(
        &mut self,
        random: &mut Random,
        reckoning: Reckoning,
    ) -> Result<Tables, AllocError> {
        let heap = self.heap;
        let own = self.fresh(random, reckoning)?;
        let bytes = damaged(heap, random, &own.bytes)?;
        if !self.check_damaged(&bytes)? {
            let other = self.fresh(random, reckoning)?;
            let unopened = Known::unopened(heap, reckoning, bytes);
            return Ok(Tables {
                own,
                other,
                unopened,
            });
        }
        let unopened = Known::unopened(heap, reckoning, Vec::new(heap));
        let other = if sizes(&bytes)[0] <= MOST_READ {
            let program = read_program(heap, &bytes)?;
            Known::opened(heap, reckoning, program, bytes)?
        } else {
            self.fresh(random, reckoning)?
        };
        Ok(Tables {
            own,
            other,
            unopened,
        })
    }
}
