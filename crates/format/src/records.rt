ghost use Rattle.format.specs.Faults.{each, verdict};
ghost use Rattle.layout.specs.Areas.{offset, size};
ghost use Rattle.refusal.specs.declared.Fault.{Fault};
ghost use Rattle.std.specs.Prelude.{List, MatchOption, suc, ℕ, ◌*◌, ◌+◌, ◌<◌, ◌^◌, ◌≡◌};

use layout::area::Area;
use layout::records::Record;
use refusal::Fault;

// The record before record i of an area; the first has none.
pub(crate) fn record_before(area: Area, bytes: &[u8], i: u16) -> Option<Record<'_>>
    ensures { MatchOption result (i ≡ 0) (λ r. (k : ℕ) × (i ≡ suc k) × (r.bytes.now ≡ bytes.now) × (r.at ≡ offset bytes.now area + size area * k)) }
{
    i.checked_sub(1)
        .map(|before| area.record(bytes, u32::from(before)))
}

// The first fault of the records 0 to n - 1, each of which is checked by itself: record i has the faults found i. A check
// takes the bytes and the number, and no `Record`: most look at the record before or at the header too.
pub(crate) fn check_each<F: Fn(u16) -> Result<(), Fault>>(n: u16, check: F) -> Result<(), Fault>
    ghost found: { ℕ → List Fault }
    requires callable { F.IsAlwaysCallable check }
    requires finds { (i : ℕ) (r : _) → i < 2 ^ 16 → F.post check i r → r ≡ verdict (found i) tt }
    ensures { result ≡ verdict (each n found) tt }
{
    for i in 0..n {
        check(i)?;
    }
    Ok(())
}
