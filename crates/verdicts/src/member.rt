// Entity fields: of the session's currency, and on its roster.
ghost use Rattle.std.specs.Prelude.{◌≡◌, ◌+◌};
ghost use Rattle.paper.specs.Fields.{field};
ghost use Rattle.paper.specs.Records.{member, member_field};
ghost use Rattle.characters.specs.Part.{HasField};
ghost use Rattle.verdicts.specs.Verdicts.{check_of};

use crate::verdict::need;
use field::entity;
use paper::answer::Fault;
use paper::rules::Terms;

// From the first of its eight positions to the last. Written out below, so that the compiler knows the width; `last` is for the reader.
const TO_LAST: usize = 7;

#[tactic(auto, using(crate::proofs::Chain::chain), unfolding(paper::specs::Records::member))]
pub fn member(terms: Terms, rec: &[u8], first: usize, last: usize) -> Result<(), Fault>
    requires has_field { HasField rec.now first last }
    requires last_value { last ≡ first + 7 }
    ensures { check_of result ≡ member terms.entry.currency terms.entry.roster.now (field rec.now first last) }
{
    let end = first + TO_LAST;
    need(
        entity::of_currency(terms.currency, rec, first, end),
        Fault::Currency,
    )?;
    need(
        entity::on_roster(terms.roster, rec, first, end),
        Fault::Roster,
    )
}

#[tactic(auto, using(crate::proofs::Chain::chain), unfolding(paper::specs::Records::member_field))]
pub fn member_field(terms: Terms, rec: &[u8], first: usize, last: usize) -> Result<(), Fault>
    requires has_field { HasField rec.now first last }
    requires last_value { last ≡ first + 7 }
    ensures { check_of result ≡ member_field terms.entry.currency terms.entry.roster.now (field rec.now first last) }
{
    let end = first + TO_LAST;
    need(entity::entity_field(rec, first, end), Fault::Format)?;
    member(terms, rec, first, end)
}
