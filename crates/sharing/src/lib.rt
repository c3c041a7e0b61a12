// A file shared out among the entities on the roster: what is handed out to one of them.
#![tactic(auto)]

ghost use Rattle.std.specs.Prelude.{◌≡◌};
ghost use Rattle.sharing.specs.Shares.{holds_to, Shares};

use desk::Session;
use field::{individual, kind, place};
use paper::answer::Refusal;
use paper::record::Kind;

// Whether a batch of the file holds a record to the entity. The file may have any length: nobody has read it yet.
#[tactic(auto, using(crate::proofs::Looking::whole, crate::proofs::Looking::none_left, crate::proofs::Looking::lent_size))]
fn holds(entity: u64, file: &[u8]) -> bool
    ensures { result ≡ holds_to entity file.now }
{
    let records = file.len() / Session::RECORD;
    let mut inside = false;
    for place in 0..records {
        let at = place * Session::RECORD;
        let rec = place::whole(&file[at..at + Session::RECORD]);
        match kind::kind(rec) {
            Kind::BatchHeader => {
                inside = true;
            }
            Kind::Individual => {
                if inside & (individual::destination(rec) == entity) {
                    return true;
                }
            }
            _ => {}
        }
    }
    false
}

// The entity's extract, so many bytes at the front of the buffer; nothing where no batch of the file holds a record to it. Or 208, the reading's refusals, 206.
// Looked through before it is read, since callers ask for every number. Nothing and every refusal leave the buffer as it was.
#[tactic(auto, using(crate::proofs::Parts::stopped_share), unfolding(crate::specs::Shares::sharing))]
pub fn share(
    session: &Session,
    entity: u64,
    file: &[u8],
    out: &mut [u8],
) -> Result<Option<usize>, Refusal>
    ensures { Shares session.now entity file.now out.old result out.new }
{
    if !holds(entity, file) {
        return Ok(None);
    }
    let size = session.extract(entity, file, out)?;
    Ok(Some(size))
}
