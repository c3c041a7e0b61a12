// Entity fields: four digits for the entity, four for a branch that is not judged.
ghost use Rattle.std.specs.Prelude.{◌≡◌, ◌+◌, ◌%◌, ◌<◌, true};
ghost use Rattle.paper.specs.Fields.{field};
ghost use Rattle.paper.specs.Entities.{entity_value, of_currency, entity_field, entity, on_roster};
ghost use Rattle.characters.specs.Part.{HasField};
ghost use Rattle.field.specs.Currencies.{in_currency};

use characters::number;
use paper::rules::{Currency, Rules};

fn entity_value(rec: &[u8], first: usize, last: usize) -> u64
    requires has_field { HasField rec.now first last }
    requires last_value { last ≡ first + 7 }
    ensures { result ≡ entity_value (field rec.now first last) }
{
    number::number(rec, first, first + 3)
}

// The number in the four digits for the entity, of this currency.
pub fn in_currency(currency: Currency, n: u64) -> bool
    ensures { result ≡ in_currency currency n }
{
    match currency {
        Currency::Pesos => number::within(1, Currency::LAST, n),
        Currency::Dollars => number::within(Currency::DOLLARS_FIRST, Currency::DOLLARS_LAST, n),
    }
}

// The entity's own number, from that of its currency. The compiler takes a remainder for two multiplications.
pub fn own(currency: Currency, n: u64) -> u64
    requires { in_currency currency n ≡ true }
    ensures { (result ≡ n % 500) × (result < 500) }
{
    match currency {
        Currency::Pesos => n,
        Currency::Dollars => n - Currency::DOLLARS_ADD,
    }
}

#[tactic(auto, using(crate::proofs::Currencies::of_field))]
pub fn of_currency(currency: Currency, rec: &[u8], first: usize, last: usize) -> bool
    requires has_field { HasField rec.now first last }
    requires last_value { last ≡ first + 7 }
    ensures { result ≡ of_currency currency (field rec.now first last) }
{
    in_currency(currency, entity_value(rec, first, last))
}

#[tactic(auto, unfolding(paper::specs::Entities::entity_field))]
pub fn entity_field(rec: &[u8], first: usize, last: usize) -> bool
    requires has_field { HasField rec.now first last }
    requires last_value { last ≡ first + 7 }
    ensures { result ≡ entity_field (field rec.now first last) }
{
    let pesos = of_currency(Currency::Pesos, rec, first, last);
    let dollars = of_currency(Currency::Dollars, rec, first, last);
    number::digits(rec, first, last) & (pesos | dollars)
}

// Dollars add 500 to the entity's number.
#[tactic(auto, unfolding(paper::specs::Entities::entity))]
pub fn entity(rec: &[u8], first: usize, last: usize) -> u64
    requires has_field { HasField rec.now first last }
    requires last_value { last ≡ first + 7 }
    ensures { (result ≡ entity (field rec.now first last)) × (result < 500) }
{
    entity_value(rec, first, last) % Currency::DOLLARS_ADD
}

#[tactic(auto, unfolding(paper::specs::Entities::on_roster))]
pub fn on_roster(roster: &[bool; Rules::ROSTER], rec: &[u8], first: usize, last: usize) -> bool
    requires has_field { HasField rec.now first last }
    requires last_value { last ≡ first + 7 }
    ensures { result ≡ on_roster roster.now (field rec.now first last) }
{
    let i = entity(rec, first, last) as usize;
    roster[i]
}
