// A company's file of 250-byte records, made into a tray.
#![tactic(auto)]

ghost use Rattle.std.specs.Prelude.{◌≡◌, ◌+◌, ◌*◌, ◌^◌, ◌≤◌, length};
ghost use Rattle.paper.specs.Answers.{said, accepted, and_then, require};
ghost use Rattle.paper.specs.Buffers.{told, over};
ghost use Rattle.paper.specs.Reading.{parts};
ghost use Rattle.company.specs.Files.{lo_good, details_fault, amounts_in, closing_good, company_answer, orders_of, tray_of, company};
ghost use Rattle.company.specs.Sums.{kept, sum_in};

use field::date;
use field::place::Record;
use paper::answer::{Fault, Refusal};
use paper::rules::Currency;
use tray::{Tray, record_at};
use writing::text;

mod closing;
mod detail;
mod order;
pub mod pieces;

#[derive(Clone, Copy)]
pub struct Company {}

impl Company {
    // Bytes of a record.
    pub const RECORD: usize = 250;
}

// 207 of an LO body.
#[tactic(auto, using(std::proofs::lemmas::Bool::Decides::nat_tests), unfolding(crate::specs::Files::lo_good))]
fn lo_good(lo: &[u8]) -> bool
    ensures { result ≡ lo_good lo.now }
{
    lo.len() == Record::LENGTH && tray::good(b"LO", lo)
}

// The details at the front of a file, or of a piece of one whose first is at place `from`: their sum with what was added up before them, as a field of ten
// digits can tell it; or the first fault.
#[tactic(auto, using(crate::proofs::Passing::passing, verdicts::proofs::Chain::chain, paper::proofs::Chained::chained))]
fn judge(
    currency: Currency,
    lo: &[u8],
    file: &[u8],
    details: usize,
    from: usize,
    sum: u64,
) -> Result<u64, Refusal>
    requires { (length lo.now ≡ 94) × (details * 250 ≤ length file.now) × (from ≤ 2 ^ 61) }
    ensures first_fault { said result ≡ details_fault currency lo.now from (parts 250 details file.now) }
    ensures total { said result ≡ accepted → sum_in result ≡ kept (sum + amounts_in (parts 250 details file.now)) }
{
    let dated = date::date(lo, 70, 75);
    let mut total = closing::added(sum, 0);
    for place in 0..details {
        let rec = record_at::<{ Company::RECORD }>(file, place);
        let amount = detail::amount(rec);
        if let Err(fault) = detail::judge(currency, lo, dated, rec, amount) {
            return Err(fault.at(from + place));
        }
        total = closing::added(total, amount);
    }
    Ok(total)
}

// 17 at the closing record, after so many details with this sum.
#[tactic(auto, using(paper::proofs::Chained::chained))]
fn close(rec: &[u8], details: usize, sum: u64) -> Result<(), Refusal>
    requires { length rec.now ≡ 250 }
    ensures { said result ≡ require (closing_good details sum rec.now) 17 details }
{
    if !closing::good(rec, details as u64, sum) {
        return Err(Fault::Format.at(details));
    }
    Ok(())
}

// 201, 207, each detail's, and 17 at the last.
#[tactic(auto, using(paper::proofs::Chained::chained, std::proofs::lemmas::Bool::Decides::nat_tests, crate::proofs::Answering::body_long, crate::proofs::Answering::closes), unfolding(crate::specs::Files::company_answer, crate::specs::Files::whole_details, crate::specs::Files::details_of))]
fn answer(currency: Currency, lo: &[u8], file: &[u8]) -> Result<(), Refusal>
    ensures { said result ≡ company_answer currency lo.now file.now }
{
    if file.len() < Company::RECORD || file.len() % Company::RECORD != 0 {
        return Err(Fault::Length.at(0));
    }
    if !lo_good(lo) {
        return Err(Fault::Tray.at(0));
    }
    let details = file.len() / Company::RECORD - 1;
    let sum = judge(currency, lo, file, details, 0, 0)?;
    let closing = record_at::<{ Company::RECORD }>(file, details);
    close(closing, details, sum)
}

// An order for each detail, each over its own part.
fn orders(dst: &mut [u8], currency: Currency, lo: &[u8], file: &[u8], details: usize)
    requires { (length lo.now ≡ 94) × (details * 250 ≤ length file.now) × (details * 96 ≤ length dst.old) }
    ensures { dst.new ≡ over (orders_of currency lo.now (parts 250 details file.now)) dst.old }
{
    for place in 0..details {
        let at = place * Tray::RECORD;
        order::write(
            &mut dst[at..at + Tray::RECORD],
            currency,
            lo,
            record_at::<{ Company::RECORD }>(file, place),
        );
    }
}

// The LO, and the orders behind it.
fn write(out: &mut [u8], currency: Currency, lo: &[u8], file: &[u8], details: usize)
    requires { (length lo.now ≡ 94) × (details * 250 ≤ length file.now) × (details * 96 + 96 ≤ length out.old) }
    ensures { out.new ≡ over (tray_of currency lo.now (parts 250 details file.now)) out.old }
{
    let body = text(out, 0, b"LO");
    let first = text(out, body, lo);
    orders(&mut out[first..], currency, lo, file, details);
}

// A company's file made into a tray, under this LO body. Nothing is written before all of it is judged.
#[tactic(auto, using(paper::proofs::Chained::chained, std::proofs::lemmas::Bool::Decides::nat_tests, crate::proofs::Answering::tray_size, crate::proofs::Answering::accepted_so), unfolding(crate::specs::Files::company, crate::specs::Files::details_of, paper::specs::Buffers::room_for))]
pub fn tray(currency: Currency, lo: &[u8], file: &[u8], out: &mut [u8]) -> Result<usize, Refusal>
    ensures { told result out.new ≡ company currency lo.now file.now out.old }
{
    let records = file.len() / Company::RECORD;
    let size = records * Tray::RECORD;
    answer(currency, lo, file)?;
    writing::room(size, out)?;
    write(out, currency, lo, file, records - 1);
    Ok(size)
}
