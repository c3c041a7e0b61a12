// The list of entity numbers that a session is opened with: any order, repeats, possibly none.
ghost use Rattle.std.specs.Prelude.{◌≡◌, false, ◌&&◌, get_or};
ghost use Rattle.paper.specs.Answers.{said, require};
ghost use Rattle.paper.specs.Fields.{every, within};

use crate::Session;
use characters::number;
use paper::answer::{Fault, Refusal};

// The lowest entity number.
const FIRST: u64 = 1;

pub fn is_entity(n: u64) -> bool
    ensures { result ≡ within 1 499 n }
{
    number::within(FIRST, Session::LAST, n)
}

// 208 for an entity number that is none, or not on the roster.
#[tactic(auto, using(paper::proofs::Chained::chained))]
pub fn entity_given(roster: &[bool; Session::ROSTER], entity: u64) -> Result<(), Refusal>
    ensures { said result ≡ require (within 1 499 entity && get_or roster.now entity false) 208 0 }
{
    if is_entity(entity) && roster[entity as usize] {
        return Ok(());
    }
    Err(Fault::Entity.at(0))
}

// Tried with `all`: what it says of its answer, all or any, did not close against `every`.
pub fn all_entities(entities: &[u64]) -> bool
    ensures { result ≡ every (within 1 499) entities.now }
{
    let mut good = true;
    for n in entities {
        good &= is_entity(*n);
    }
    good
}
