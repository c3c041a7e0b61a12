// Building from a tray, and stripping back to one.
ghost use Rattle.std.specs.Prelude.{◌≡◌};
ghost use Rattle.paper.specs.Buffers.{building, stripping};
ghost use Rattle.export.specs.Spoken.{delivered_of, in_session};

use crate::{Spoken, open, opened, speak};

// A file built in a session opened with this date, currency and list of entities.
#[tactic(auto, using(crate::proofs::Jobs::jobs))]
pub fn shaydhoqel_build(
    date: u64,
    dollars: bool,
    entities: &[u64],
    header: &[u8],
    tray: &[u8],
    out: &mut [u8],
) -> Spoken
    ensures { in_session date dollars entities.now out.old
        (λ session. delivered_of (building session.rules header.now tray.now out.old))
        ≡ record { spoken = result; lent = out.new } }
{
    let reply = open(date, dollars, entities);
    match opened(&reply) {
        Ok(session) => speak(session.build(header, tray, out)),
        Err(spoken) => spoken,
    }
}

// The tray of a file, in such a session.
#[tactic(auto, using(crate::proofs::Jobs::jobs))]
pub fn shaydhoqel_strip(
    date: u64,
    dollars: bool,
    entities: &[u64],
    file: &[u8],
    out: &mut [u8],
) -> Spoken
    ensures { in_session date dollars entities.now out.old
        (λ session. delivered_of (stripping session.rules file.now out.old))
        ≡ record { spoken = result; lent = out.new } }
{
    let reply = open(date, dollars, entities);
    match opened(&reply) {
        Ok(session) => speak(session.strip(file, out)),
        Err(spoken) => spoken,
    }
}
