// What may stand after what.
ghost use Rattle.std.specs.Prelude.{◌≡◌};
ghost use Rattle.paper.specs.Kinds.{allowed};
ghost use Rattle.verdicts.specs.Verdicts.{check_of};

use paper::answer::Fault;
use paper::record::{Before, Kind};

pub fn allowed(before: Before, kind: Kind) -> Result<(), Fault>
    ensures { check_of result ≡ allowed before kind }
{
    match before {
        Before::Nothing => match kind {
            Kind::FileHeader => Ok(()),
            _ => Err(Fault::Format),
        },
        Before::Between => match kind {
            Kind::BatchHeader | Kind::FileControl => Ok(()),
            _ => Err(Fault::Format),
        },
        Before::Opened => match kind {
            Kind::Individual => Ok(()),
            _ => Err(Fault::Format),
        },
        Before::Flagged => match kind {
            Kind::Additional => Ok(()),
            _ => Err(Fault::Additional),
        },
        Before::Inside => match kind {
            Kind::Individual | Kind::BatchControl => Ok(()),
            Kind::Additional => Err(Fault::Additional),
            _ => Err(Fault::Format),
        },
        Before::Ended => Err(Fault::Format),
    }
}
