// What the desk answers on a file: the reading's answer, and whether it came before.
ghost use Rattle.std.specs.Prelude.{◌≡◌, not};
ghost use Rattle.paper.specs.Answers.{said, require};
ghost use Rattle.paper.specs.Reading.{reading_by};

use paper::answer::{Fault, Refusal};
use paper::rules::{Reader, Rules, Terms};

// By the house, or at a member's desk.
#[tactic(auto, using(paper::proofs::Chained::chained))]
pub fn read_by(reader: Reader, rules: &Rules, file: &[u8]) -> Result<(), Refusal>
    ensures { said result ≡ reading_by record { session = rules.now; reader = reader } file.now }
{
    let terms = Terms {
        date: rules.date,
        currency: rules.currency,
        roster: &rules.roster,
        reader,
    };
    reading::read(terms, file)?;
    Ok(())
}

// 209 where the identifier is used.
#[tactic(auto, using(paper::proofs::Chained::chained))]
pub fn unless_used(used: bool) -> Result<(), Refusal>
    ensures { said result ≡ require (not used) 209 0 }
{
    if used {
        return Err(Fault::Identifier.at(0));
    }
    Ok(())
}
