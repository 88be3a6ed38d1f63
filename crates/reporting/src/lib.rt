#![tactic(auto)]

mod theorems;

ghost use Rattle.reporting.specs.Reporting.{Reported, Told};
ghost use Rattle.std.specs.Prelude.{◌≡◌, ◌≤◌, IfOk, length};

use house::House;
use lines::MOST;
use notation::fault_text;
use refusal::Fault;
use sheet::Sheet;
use std::alloc::{AllocError, Global};
use table::table::Table;

// Writes the report from no findings under the house family, unless the bytes are refused.
fn report(bytes: &[u8], out: &mut [u8]) -> Result<usize, Fault>
    requires { 4620 ≤ length out.old }
    ensures { Told bytes.now out.old out.new result }
{
    let table = Table::open(bytes);
    table.counts()?;
    Sheet::begin(&table).sign().report(&table, &House, out)
}

// What the program gives for the bytes of a table: the report from an empty signed sheet under the house family, or one
// line that says why the bytes are refused, or which kind is lacking.
#[tactic(auto, using(crate::proofs::Texts::told_reported))]
pub fn reported(heap: Global, bytes: &[u8]) -> Result<Vec<u8>, AllocError>
    ensures { IfOk result (λ out. Reported bytes.now out.items) }
{
    let mut out = [0; MOST];
    match report(bytes, &mut out) {
        Ok(len) => {
            let mut text = Vec::new(heap);
            text.extend_from_slice(&out[..len])?;
            Ok(text)
        }
        Err(fault) => Ok(fault_text(heap, fault)?.into_bytes()),
    }
}

#[cfg(test)]
mod tests {
    use super::*;
    use std::test::Fail;

    // No clause says that there is memory: refused bytes are told, and so is a table with nothing in it.
    #[test]
    fn tells_of_refused_bytes_and_of_nothing(rt: HostRuntime) -> Result<(), Fail> {
        let nothing =
            b"\x01\x00\x1c\x00\x00\x00\x1c\x00\x00\x00\x1c\x00\x00\x00\x1c\x00\x00\x00\x1c\x00\x00\x00\x1c\x00\x00\x00\x1c\x00";
        for (bytes, want) in [
            (b"".as_slice(), b"refused 1 at 0\n".as_slice()),
            (nothing.as_slice(), b"account 0\n".as_slice()),
        ] {
            let told = reported(rt.alloc(), bytes)?;
            assert_eq!(rt; told.as_slice(), want);
        }
        Ok(())
    }
}
