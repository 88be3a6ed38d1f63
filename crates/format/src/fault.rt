ghost use Rattle.format.specs.Faults.{unless, verdict};
ghost use Rattle.std.specs.Prelude.{◌≡◌};

use refusal::{Fault, Refusal};

// Refuses unless the condition holds.
pub fn demand(holds: bool, refusal: Refusal, place: usize) -> Result<(), Fault>
    ensures { result ≡ verdict (unless holds refusal place) tt }
{
    if holds {
        Ok(())
    } else {
        Err(Fault { refusal, place })
    }
}
