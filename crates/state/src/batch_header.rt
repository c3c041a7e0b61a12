// 5, batch header.
ghost use Rattle.paper.specs.declared.record.Kind.TheVariants.{BatchHeader};
ghost use Rattle.verdicts.specs.Verdicts.{under};
ghost use Rattle.state.specs.States.{Ready, Steps};

use crate::State;
use field::place::record_at;
use headers::batch_header;
use paper::answer::Fault;
use paper::record::Kind;
use paper::rules::Terms;

pub fn step(terms: Terms, file: &[u8], place: usize, state: State) -> Result<State, Fault>
    requires { Ready BatchHeader file.now place state }
    ensures { Steps BatchHeader (under terms.entry) file.now place state result }
{
    let rec = record_at(file, place);
    batch_header::judge(terms, state.batches, rec)?;
    Ok(state.past(Kind::BatchHeader, place))
}
