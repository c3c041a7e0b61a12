// Rules in the order printed: the first fault is the answer.
ghost use Rattle.std.specs.Prelude.{◌≡◌};
ghost use Rattle.paper.specs.Answers.{number_of};
ghost use Rattle.paper.specs.Checks.{need};
ghost use Rattle.verdicts.specs.Verdicts.{check_of, placed};

use paper::answer::{Fault, Refusal};

// The test holds, or this fault.
pub fn need(holds: bool, fault: Fault) -> Result<(), Fault>
    ensures { check_of result ≡ need holds (number_of fault) }
{
    if holds { Ok(()) } else { Err(fault) }
}

// The same, said of the record at a place.
pub fn at<T>(judged: Result<T, Fault>, place: usize) -> Result<T, Refusal>
    ensures { result ≡ placed judged place }
{
    match judged {
        Ok(good) => Ok(good),
        Err(fault) => Err(fault.at(place)),
    }
}
