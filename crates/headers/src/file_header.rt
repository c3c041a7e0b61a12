// 1, file header.
ghost use Rattle.std.specs.Prelude.{◌≡◌, length};
ghost use Rattle.paper.specs.Fields.{field};
ghost use Rattle.paper.specs.Records.{origin_good, own_desk, headed, file_header};
ghost use Rattle.verdicts.specs.Verdicts.{check_of, under};

use characters::{number, text};
use field::place::Record;
use field::{date, entity};
use paper::answer::Fault;
use paper::rules::{Currency, Reader, Terms};
use verdicts::member;
use verdicts::verdict::need;

// An entity field; at a desk free eight digits.
#[tactic(auto, using(verdicts::proofs::Chain::chain), unfolding(paper::specs::Records::origin_good))]
fn origin_good(reader: Reader, rec: &[u8; Record::LENGTH]) -> bool
    ensures { result ≡ origin_good reader (field rec.now 15 22) }
{
    match reader {
        Reader::House => entity::entity_field(rec, 15, 22),
        Reader::Desk(_) => number::digits(rec, 15, 22),
    }
}

// The desk's own entity, of the session's currency, with branch 0000.
#[tactic(auto, using(verdicts::proofs::Chain::chain), unfolding(paper::specs::Records::own_desk))]
fn own_desk(currency: Currency, desk: u64, rec: &[u8; Record::LENGTH]) -> bool
    ensures { result ≡ own_desk currency desk rec.now }
{
    entity::of_currency(currency, rec, 5, 12)
        & (entity::entity(rec, 5, 12) == desk)
        & text::reads(rec, 9, 12, b"0000")
}

// The origin's currency and roster; at a desk, that the header is its own.
#[tactic(auto, using(verdicts::proofs::Chain::chain), unfolding(paper::specs::Records::headed))]
fn headed(terms: Terms, rec: &[u8; Record::LENGTH]) -> Result<(), Fault>
    ensures { check_of result ≡ headed terms.entry.reader (under terms.entry).session rec.now }
{
    match terms.reader {
        Reader::House => member::member(terms, rec, 15, 22),
        Reader::Desk(desk) => need(own_desk(terms.currency, desk, rec), Fault::Format),
    }
}

#[tactic(auto, using(verdicts::proofs::Chain::chain), unfolding(paper::specs::Records::file_header))]
pub fn judge(terms: Terms, rec: &[u8; Record::LENGTH]) -> Result<(), Fault>
    ensures { check_of result ≡ file_header (under terms.entry) rec.now }
{
    let destination = text::reads(rec, 4, 4, b" ")
        & number::digits(rec, 5, 12)
        & text::reads(rec, 13, 13, b"0");
    let origin = text::reads(rec, 14, 14, b" ")
        & origin_good(terms.reader, rec)
        & text::reads(rec, 23, 23, b"0");
    let today = date::date(rec, 24, 29) & number::spells(rec, 24, 29, terms.date);
    need(text::reads(rec, 2, 3, b"01"), Fault::Format)?;
    need(destination, Fault::Format)?;
    need(origin, Fault::Format)?;
    need(today, Fault::Date)?;
    need(date::time(rec, 30, 33), Fault::Format)?;
    need(text::identifier(rec, 34), Fault::Format)?;
    need(text::reads(rec, 35, 40, b"094101"), Fault::Format)?;
    headed(terms, rec)
}
