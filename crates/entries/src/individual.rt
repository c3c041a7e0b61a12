// 6, individual.
ghost use Rattle.std.specs.Prelude.{◌≡◌, true, ◌&&◌, List, ℕ, ◌<◌, ltb, length, IfOk};
ghost use Rattle.paper.specs.Accounts.{account_checked};
ghost use Rattle.paper.specs.Entities.{entity_value, entity};
ghost use Rattle.paper.specs.Fields.{field, digits};
ghost use Rattle.paper.specs.Records.{amount_of, destination_field, account_good, information_good, flag_good, addressed, destination, transfer, number_in, individual};
ghost use Rattle.paper.specs.Checks.{need};
ghost use Rattle.verdicts.specs.Verdicts.{check_of, under};
ghost use Rattle.entries.specs.Judging.{entry_of, flag_rules, counter_rules, closing_rules};

use characters::{number, text, word};
use field::place::Record;
use field::{block, entity, individual, kind};
use paper::answer::Fault;
use paper::record::Code;
use paper::rules::{Currency, Reader, Terms};
use verdicts::verdict::need;

// The numbers of an individual record.
#[derive(Clone, Copy)]
pub struct Entry {
    pub code: Code,
    // its field 4-11, and its amount
    pub destination: u64,
    pub amount: u64,
    // 88-94
    pub counter: u64,
}

impl Entry {
    // Of a record that is no individual one.
    pub const NONE: Entry = Entry {
        code: Code::Unknown,
        destination: 0,
        amount: 0,
        counter: 0,
    };
}

// One past the largest number of four digits.
const FOUR_DIGITS: u64 = 10000;

pub fn account_good(rec: &[u8; Record::LENGTH]) -> bool
    ensures { result ≡ account_good rec.now }
{
    number::digits(rec, 13, 29)
}

// The same with its check digit; the reading does not ask it yet. Sixteen digits are one step for the machine, so that two of the three zeros are asked twice.
// The front word serves the zeros and the block.
pub fn account_checked(rec: &[u8; Record::LENGTH]) -> bool
    ensures { result ≡ account_checked rec.now }
{
    if !number::digits(rec, 14, 29) {
        return false;
    }
    let front = word::word(rec, 13, 20);
    let back = word::word(rec, 21, 28);
    word::three_zeros(front) & block::good(front, back, rec[28])
}

pub fn information_good(rec: &[u8; Record::LENGTH]) -> bool
    ensures { result ≡ information_good rec.now }
{
    text::reads(rec, 77, 78, b"00")
        | (text::reads(rec, 77, 78, b"01") & kind::takes01(kind::code(rec)))
}

pub fn flag_good(rec: &[u8; Record::LENGTH]) -> bool
    ensures { result ≡ flag_good rec.now }
{
    individual::flagged(rec) | (kind::is_order(kind::code(rec)) & text::reads(rec, 77, 78, b"00"))
}

// Whom it is for, by who reads.
#[tactic(auto, using(verdicts::proofs::Chain::chain), unfolding(paper::specs::Records::addressed))]
fn addressed(terms: Terms, to: u64) -> Result<(), Fault>
    requires { to < 500 }
    ensures { (f : List ℕ) → entity f ≡ to → check_of result ≡ addressed terms.entry.reader terms.entry.roster.now f }
{
    match terms.reader {
        Reader::House => need(terms.roster[to as usize], Fault::Roster),
        Reader::Desk(desk) => need(to == desk, Fault::Format),
    }
}

// Of an entity field of digits, by the number of the first four: the currency mostly fits, so that it is asked first.
fn destination(terms: Terms, n: u64) -> Result<(), Fault>
    ensures { (f : List ℕ) → digits f ≡ true → entity_value f ≡ n → check_of result ≡ destination (under terms.entry) f }
{
    if entity::in_currency(terms.currency, n) {
        return addressed(terms, entity::own(terms.currency, n));
    }
    if entity::in_currency(Currency::Pesos, n) | entity::in_currency(Currency::Dollars, n) {
        return Err(Fault::Currency);
    }
    Err(Fault::Format)
}

// Positions 4 to 11. Hands on entity and branch as one number.
fn whereto(terms: Terms, rec: &[u8; Record::LENGTH]) -> Result<u64, Fault>
    ensures says { check_of result ≡ destination (under terms.entry) (field rec.now 4 11) }
    ensures hands { IfOk result (λ n. n ≡ destination_field rec.now) }
{
    let Some((entity, branch)) = word::halves(rec, 4, 11) else {
        return Err(Fault::Format);
    };
    destination(terms, entity)?;
    Ok(entity * FOUR_DIGITS + branch)
}

// Positions 30 to 39: ten digits that are not all zeros. Hands on the amount.
#[tactic(auto, using(verdicts::proofs::Chain::chain, crate::proofs::Chains::some_amount))]
fn amount(rec: &[u8; Record::LENGTH]) -> Result<u64, Fault>
    ensures says { check_of result ≡ need (digits (field rec.now 30 39) && ltb 0 (amount_of rec.now)) 19 }
    ensures hands { IfOk result (λ n. n ≡ amount_of rec.now) }
{
    let amount = individual::amount(rec);
    need(0 < amount, Fault::Amount)?;
    Ok(amount)
}

// Positions 2 to 54: the code, whereto, how much and for what. Hands on field 4-11 and the amount.
#[tactic(auto, using(verdicts::proofs::Chain::chain), unfolding(paper::specs::Records::transfer))]
fn transfer(terms: Terms, rec: &[u8; Record::LENGTH]) -> Result<(u64, u64), Fault>
    ensures says { check_of result ≡ transfer (under terms.entry) rec.now }
    ensures hands { IfOk result (λ m. (m.0 ≡ destination_field rec.now) × (m.1 ≡ amount_of rec.now)) }
{
    need(kind::known(kind::code(rec)), Fault::Format)?;
    let destination = whereto(terms, rec)?;
    need(text::reads(rec, 12, 12, b"0"), Fault::Reserved)?;
    need(account_good(rec), Fault::Account)?;
    let amount = amount(rec)?;
    need(!word::blank(rec, 40, 54), Fault::Reference)?;
    Ok((destination, amount))
}

// 1 goes with every code: asked before the code, it leaves one thing to foretell, whether an additional follows.
#[tactic(auto, using(verdicts::proofs::Chain::chain), unfolding(crate::specs::Judging::flag_rules))]
fn flag(rec: &[u8; Record::LENGTH]) -> Result<(), Fault>
    ensures { check_of result ≡ flag_rules rec.now }
{
    if individual::flagged(rec) {
        return Ok(());
    }
    need(text::reads(rec, 79, 79, b"0"), Fault::Format)?;
    need(flag_good(rec), Fault::Additional)
}

// Positions 80 to 94, under the batch's header and after the number before. Hands on 88-94.
#[tactic(auto, using(verdicts::proofs::Chain::chain), unfolding(crate::specs::Judging::counter_rules))]
fn counter(
    header: &[u8; Record::LENGTH],
    previous: u64,
    rec: &[u8; Record::LENGTH],
) -> Result<u64, Fault>
    ensures says { check_of result ≡ counter_rules header.now previous rec.now }
    ensures hands { IfOk result (λ counter. counter ≡ number_in rec.now) }
{
    let Some(counter) = individual::counter(rec) else {
        return Err(Fault::Format);
    };
    let follows = word::same(rec, 80, 87, header, 80, 87) & (previous < counter);
    need(follows, Fault::Counter)?;
    Ok(counter)
}

// Positions 55 to 94. Hands on 88-94.
#[tactic(auto, using(verdicts::proofs::Chain::chain), unfolding(crate::specs::Judging::closing_rules))]
fn closing(
    header: &[u8; Record::LENGTH],
    previous: u64,
    rec: &[u8; Record::LENGTH],
) -> Result<u64, Fault>
    ensures says { check_of result ≡ closing_rules header.now previous rec.now }
    ensures hands { IfOk result (λ counter. counter ≡ number_in rec.now) }
{
    need(!word::blank(rec, 55, 76), Fault::Format)?;
    need(information_good(rec), Fault::Information)?;
    flag(rec)?;
    counter(header, previous, rec)
}

// A record without fault hands on its numbers, each of them read once.
#[tactic(auto, using(verdicts::proofs::Chain::chain, crate::proofs::Chains::in_parts), unfolding(crate::specs::Judging::entry_of))]
pub fn judge(
    terms: Terms,
    header: &[u8; Record::LENGTH],
    previous: u64,
    rec: &[u8; Record::LENGTH],
) -> Result<Entry, Fault>
    ensures says { check_of result ≡ individual (under terms.entry) header.now previous rec.now }
    ensures hands { IfOk result (λ entry. entry ≡ entry_of rec.now) }
{
    let (destination, amount) = transfer(terms, rec)?;
    let counter = closing(header, previous, rec)?;
    Ok(Entry {
        code: kind::code(rec),
        destination,
        amount,
        counter,
    })
}
