// 7, additional, after an individual record.
ghost use Rattle.std.specs.Prelude.{◌≡◌, length};
ghost use Rattle.paper.specs.Records.{additional99, additional05, additional};
ghost use Rattle.verdicts.specs.Verdicts.{check_of};

use characters::{number, text};
use field::kind;
use field::place::Record;
use paper::answer::Fault;
use verdicts::verdict::need;

// After 36 or 31.
#[tactic(auto, using(verdicts::proofs::Chain::chain), unfolding(paper::specs::Records::additional99))]
pub fn judge99(individual: &[u8; Record::LENGTH], rec: &[u8; Record::LENGTH]) -> Result<(), Fault>
    ensures { check_of result ≡ additional99 individual.now rec.now }
{
    let motive = text::reads(rec, 4, 4, b"R") & number::digits(rec, 5, 6);
    need(text::reads(rec, 2, 3, b"99"), Fault::Additional)?;
    need(motive, Fault::Format)?;
    need(number::digits(rec, 7, 21), Fault::Format)?;
    need(text::blank(rec, 22, 27), Fault::Format)?;
    need(number::digits(rec, 28, 35), Fault::Format)?;
    need(
        text::same(rec, 80, 94, individual, 80, 94),
        Fault::Additional,
    )
}

// After the others.
#[tactic(auto, using(verdicts::proofs::Chain::chain), unfolding(paper::specs::Records::additional05))]
pub fn judge05(individual: &[u8; Record::LENGTH], rec: &[u8; Record::LENGTH]) -> Result<(), Fault>
    ensures { check_of result ≡ additional05 individual.now rec.now }
{
    need(text::reads(rec, 2, 3, b"05"), Fault::Additional)?;
    need(number::digits(rec, 84, 87), Fault::Format)?;
    need(
        text::same(rec, 88, 94, individual, 88, 94),
        Fault::Additional,
    )
}

#[tactic(auto, using(verdicts::proofs::Chain::chain), unfolding(paper::specs::Records::additional))]
pub fn judge(individual: &[u8; Record::LENGTH], rec: &[u8; Record::LENGTH]) -> Result<(), Fault>
    ensures { check_of result ≡ additional individual.now rec.now }
{
    if kind::rejects(kind::code(individual)) {
        return judge99(individual, rec);
    }
    judge05(individual, rec)
}
