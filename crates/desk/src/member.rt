// A member's desk: receiving what was handed out to it, and showing why a debit came back. Nothing is posted.
ghost use Rattle.std.specs.Prelude.{◌≡◌};
ghost use Rattle.paper.specs.Answers.{said, require};
ghost use Rattle.paper.specs.Receiving.{motives_good};
ghost use Rattle.desk.specs.Calls.{Receives, Asks, Shows};

use crate::{Session, answers, roster};
use paper::answer::{Fault, Refusal};
use paper::rules::Reader;
use reasons::Shown;

// 207 for a motive list of another length.
#[tactic(auto, using(paper::proofs::Chained::chained), unfolding(paper::specs::Receiving::motives_good))]
fn motives_given(motives: &[u8]) -> Result<(), Refusal>
    ensures { said result ≡ require (motives_good motives.now) 207 0 }
{
    if motives.len() == Shown::MOTIVES {
        return Ok(());
    }
    Err(Fault::Tray.at(0))
}

impl Session {
    // 208, then the reading at the entity's desk.
    #[tactic(auto, using(paper::proofs::Chained::chained), unfolding(paper::specs::Receiving::receiving, paper::specs::Buffers::entity_given))]
    pub fn receive(&self, entity: u64, file: &[u8]) -> Result<(), Refusal>
        ensures { Receives self.now entity file.now result }
    {
        roster::entity_given(&self.rules.roster, entity)?;
        let desk = Reader::Desk(entity);
        answers::read_by(desk, &self.rules, file)
    }

    // What showing answers before a record is asked for: 208, 207, then the reading at the entity's desk.
    #[tactic(auto, using(paper::proofs::Chained::chained), unfolding(paper::specs::Receiving::showable, paper::specs::Buffers::entity_given))]
    pub fn ask(&self, entity: u64, file: &[u8], motives: &[u8]) -> Result<(), Refusal>
        ensures { Asks self.now entity file.now motives.now result }
    {
        roster::entity_given(&self.rules.roster, entity)?;
        motives_given(motives)?;
        answers::read_by(Reader::Desk(entity), &self.rules, file)
    }

    // The same, then 214; and where the text of the reason in the record at a place stands.
    #[tactic(auto, using(paper::proofs::Chained::chained, crate::proofs::Members::shows), unfolding(paper::specs::Receiving::showing))]
    pub fn show(
        &self,
        entity: u64,
        file: &[u8],
        motives: &[u8],
        place: usize,
    ) -> Result<Shown, Refusal>
        ensures { Shows self.now entity file.now motives.now place result }
    {
        self.ask(entity, file, motives)?;
        reasons::find(file, place)
    }
}
