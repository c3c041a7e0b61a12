// 7, additional, after an individual record.
ghost use Rattle.paper.specs.declared.record.Kind.TheVariants.{Additional};
ghost use Rattle.paper.specs.Records.{ReadingRules};
ghost use Rattle.state.specs.States.{Ready, Steps};

use crate::State;
use entries::additional;
use field::place::record_at;
use paper::answer::Fault;
use paper::record::Kind;

pub fn step(file: &[u8], place: usize, state: State) -> Result<State, Fault>
    requires { Ready Additional file.now place state }
    ensures { (rules : ReadingRules) → Steps Additional rules file.now place state result }
{
    let rec = record_at(file, place);
    let individual = record_at(file, state.individual);
    additional::judge(individual, rec)?;
    Ok(state.past(Kind::Additional, place))
}
