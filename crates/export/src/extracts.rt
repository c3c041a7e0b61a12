// What is addressed to one entity.
ghost use Rattle.std.specs.Prelude.{◌≡◌};
ghost use Rattle.paper.specs.Buffers.{extracting};
ghost use Rattle.export.specs.Spoken.{delivered_of, in_session};

use crate::{Spoken, open, opened, speak};

// An extract in a session opened with this date, currency and list of entities.
#[tactic(auto, using(crate::proofs::Jobs::jobs))]
pub fn shaydhoqel_extract(
    date: u64,
    dollars: bool,
    entities: &[u64],
    entity: u64,
    file: &[u8],
    out: &mut [u8],
) -> Spoken
    ensures { in_session date dollars entities.now out.old
        (λ session. delivered_of (extracting session.rules entity file.now out.old))
        ≡ record { spoken = result; lent = out.new } }
{
    let reply = open(date, dollars, entities);
    match opened(&reply) {
        Ok(session) => speak(session.extract(entity, file, out)),
        Err(spoken) => spoken,
    }
}
