// 9, file control.
ghost use Rattle.paper.specs.declared.record.Kind.TheVariants.{FileControl};
ghost use Rattle.paper.specs.Records.{ReadingRules};
ghost use Rattle.state.specs.States.{Ready, Steps};

use crate::State;
use controls::file_control;
use field::place::record_at;
use paper::answer::Fault;
use paper::record::Kind;

pub fn step(file: &[u8], place: usize, state: State) -> Result<State, Fault>
    requires { Ready FileControl file.now place state }
    ensures { (rules : ReadingRules) → Steps FileControl rules file.now place state result }
{
    let rec = record_at(file, place);
    let all = place as u64 + 1;
    let closed = state.closed;
    file_control::judge(all, state.batches, closed, rec)?;
    Ok(state.past(Kind::FileControl, place))
}
