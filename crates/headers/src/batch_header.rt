// 5, batch header.
ghost use Rattle.std.specs.Prelude.{◌≡◌, ◌≤◌, length};
ghost use Rattle.paper.specs.Fields.{field};
ghost use Rattle.paper.specs.Records.{number_good, batch_header};
ghost use Rattle.verdicts.specs.Verdicts.{check_of, under};

use characters::{number, text};
use field::date;
use field::place::Record;
use paper::answer::Fault;
use paper::rules::{Reader, Terms};
use verdicts::member;
use verdicts::verdict::need;

// Digits; at a desk the next of 1, 2, ..
#[tactic(auto, using(verdicts::proofs::Chain::chain), unfolding(paper::specs::Records::number_good))]
fn number_good(reader: Reader, before: u64, rec: &[u8; Record::LENGTH]) -> bool
    requires before_bound { before ≤ 10000 }
    ensures { result ≡ number_good reader before (field rec.now 88 94) }
{
    match reader {
        Reader::House => number::digits(rec, 88, 94),
        Reader::Desk(_) => number::spells(rec, 88, 94, before + 1),
    }
}

// After so many batches before it.
#[tactic(auto, using(verdicts::proofs::Chain::chain), unfolding(paper::specs::Records::batch_header))]
pub fn judge(terms: Terms, before: u64, rec: &[u8; Record::LENGTH]) -> Result<(), Fault>
    requires before_bound { before ≤ 10000 }
    ensures { check_of result ≡ batch_header (under terms.entry) before rec.now }
{
    need(number::digits(rec, 2, 4), Fault::Format)?;
    need(!text::blank(rec, 5, 20), Fault::Format)?;
    need(number::digits(rec, 41, 50), Fault::Format)?;
    need(!text::blank(rec, 54, 63), Fault::Format)?;
    need(date::date(rec, 70, 75), Fault::Date)?;
    need(number::digits(rec, 79, 79), Fault::Format)?;
    member::member_field(terms, rec, 80, 87)?;
    need(number_good(terms.reader, before, rec), Fault::Format)
}
