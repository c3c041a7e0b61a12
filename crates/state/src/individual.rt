// 6, individual.
ghost use Rattle.paper.specs.declared.record.Kind.TheVariants.{Individual};
ghost use Rattle.verdicts.specs.Verdicts.{under};
ghost use Rattle.state.specs.States.{Ready, Steps};

use crate::{State, numbers};
use field::individual;
use field::place::record_at;
use paper::answer::Fault;
use paper::record::Kind;
use paper::rules::Terms;

pub fn step(terms: Terms, file: &[u8], place: usize, state: State) -> Result<State, Fault>
    requires { Ready Individual file.now place state }
    ensures { Steps Individual (under terms.entry) file.now place state result }
{
    let rec = record_at(file, place);
    let header = record_at(file, state.header);
    let entry = entries::individual::judge(terms, header, state.counter, rec)?;
    let fresh = numbers::judge(file, place, entry.counter, state.highest, state.fresh)?;
    let flagged = individual::flagged(rec);
    Ok(state.after(Kind::Individual, place, entry, flagged, fresh))
}
