// A detail of the company's file: its rules, and what it says.
ghost use Rattle.std.specs.Prelude.{◌≡◌, ◌&&◌, ◌+◌, ◌^◌, ◌≤◌, ◌<◌, length};
ghost use Rattle.paper.specs.Fields.{field, number};
ghost use Rattle.paper.specs.Dates.{date_field};
ghost use Rattle.characters.specs.Part.{HasField};
ghost use Rattle.verdicts.specs.Verdicts.{check_of};
ghost use Rattle.company.specs.Details.{due_in, payer_entity, client_in, reference_in, cents_in, text_good, currency_good, due_good, detail};

use characters::{number, text, word};
use field::individual;
use paper::answer::Fault;
use paper::rules::Currency;
use verdicts::verdict::need;

// The entity in block 1.
pub fn entity(rec: &[u8]) -> u64
    requires { length rec.now ≡ 250 }
    ensures { (result ≡ payer_entity rec.now) × (result < 1000) }
{
    number::number(rec, 34, 36)
}

// In cents; nothing where it is not ten digits.
pub fn amount(rec: &[u8]) -> u64
    requires { length rec.now ≡ 250 }
    ensures { (result ≡ number (cents_in rec.now)) × (result < 10 ^ 10) }
{
    individual::cents(rec, 104)
}

#[tactic(auto, unfolding(crate::specs::Details::text_good))]
fn text_good(rec: &[u8], first: usize, last: usize) -> bool
    requires has_field { HasField rec.now first last }
    requires first_bound { first + 7 ≤ last }
    ensures { result ≡ text_good (field rec.now first last) }
{
    text::all_good(text::part(rec, first, last)) & !word::blank(rec, first, last)
}

// Reference and client. A window of forty-eight positions around both is compiled to few instructions, and mostly all of it is of characters, also what is
// not judged. Where it is not, each is looked at by itself.
fn texts_good(rec: &[u8]) -> bool
    requires { length rec.now ≡ 250 }
    ensures { result ≡ (text_good (reference_in rec.now) && text_good (client_in rec.now)) }
{
    if text::all_good(text::part(rec, 57, 104)) {
        return !word::blank(rec, 89, 103) & !word::blank(rec, 59, 80);
    }
    text_good(rec, 89, 103) & text_good(rec, 59, 80)
}

#[tactic(auto, unfolding(crate::specs::Details::currency_good))]
fn currency_good(currency: Currency, rec: &[u8]) -> bool
    requires { length rec.now ≡ 250 }
    ensures { result ≡ currency_good currency rec.now }
{
    match currency {
        Currency::Pesos => text::reads(rec, 114, 115, b"80"),
        Currency::Dollars => text::reads(rec, 114, 115, b"82"),
    }
}

// A date ddmmaaaa that is the LO body's AAMMDD is one exactly where that is, which is asked once for a file.
#[tactic(auto, using(crate::proofs::Dates::due_by_parts))]
fn due_good(lo: &[u8], dated: bool, rec: &[u8]) -> bool
    requires lo_len { (length lo.now ≡ 94) × (length rec.now ≡ 250) }
    requires dated_value { dated ≡ date_field (field lo.now 70 75) }
    ensures { result ≡ due_good lo.now (due_in rec.now) }
{
    let century = text::reads(rec, 30, 31, b"20");
    let year = text::same(rec, 32, 33, lo, 70, 71);
    let month = text::same(rec, 28, 29, lo, 72, 73);
    let day = text::same(rec, 26, 27, lo, 74, 75);
    dated & century & (year & month & day)
}

// Whether the LO body has a date, and the detail's amount, are found before.
#[tactic(auto, using(verdicts::proofs::Chain::chain, characters::proofs::Value::some_number), unfolding(crate::specs::Details::detail))]
pub fn judge(
    currency: Currency,
    lo: &[u8],
    dated: bool,
    rec: &[u8],
    amount: u64,
) -> Result<(), Fault>
    requires lo_len { (length lo.now ≡ 94) × (length rec.now ≡ 250) }
    requires dated_value { dated ≡ date_field (field lo.now 70 75) }
    requires amount_value { amount ≡ number (cents_in rec.now) }
    ensures { check_of result ≡ detail currency lo.now rec.now }
{
    let account = word::digits(rec, 34, 41) & word::wide_digits(rec, 45, 58);
    need(text::reads(rec, 1, 1, b"D"), Fault::Format)?;
    need(account, Fault::Format)?;
    need(
        number::within(1, Currency::LAST, entity(rec)),
        Fault::Format,
    )?;
    need(texts_good(rec), Fault::Format)?;
    need(currency_good(currency, rec), Fault::Currency)?;
    need(0 < amount, Fault::Amount)?;
    need(due_good(lo, dated, rec), Fault::Date)
}
