// 1, file header.
ghost use Rattle.paper.specs.declared.record.Kind.TheVariants.{FileHeader};
ghost use Rattle.verdicts.specs.Verdicts.{under};
ghost use Rattle.state.specs.States.{Ready, Steps};

use crate::State;
use field::place::record_at;
use headers::file_header;
use paper::answer::Fault;
use paper::record::Kind;
use paper::rules::Terms;

pub fn step(terms: Terms, file: &[u8], place: usize, state: State) -> Result<State, Fault>
    requires { Ready FileHeader file.now place state }
    ensures { Steps FileHeader (under terms.entry) file.now place state result }
{
    let rec = record_at(file, place);
    file_header::judge(terms, rec)?;
    Ok(state.past(Kind::FileHeader, place))
}
