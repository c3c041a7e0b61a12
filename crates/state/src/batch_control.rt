// 8, batch control, under its header.
ghost use Rattle.paper.specs.declared.record.Kind.TheVariants.{BatchControl};
ghost use Rattle.paper.specs.Records.{ReadingRules};
ghost use Rattle.state.specs.States.{Ready, Steps};

use crate::State;
use controls::batch_control;
use field::place::record_at;
use paper::answer::Fault;
use paper::record::Kind;

pub fn step(file: &[u8], place: usize, state: State) -> Result<State, Fault>
    requires { Ready BatchControl file.now place state }
    ensures { (rules : ReadingRules) → Steps BatchControl rules file.now place state result }
{
    let rec = record_at(file, place);
    let header = record_at(file, state.header);
    let batch = state.batch;
    batch_control::judge(header, batch, rec)?;
    Ok(state.past(Kind::BatchControl, place))
}
