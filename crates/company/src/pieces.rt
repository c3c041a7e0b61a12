// A company's file that no buffer holds: looked at in pieces of whole records, it is refused as the whole is, else for want of room.
ghost use Rattle.std.specs.Prelude.{◌≡◌, ◌+◌, ◌*◌, ◌^◌, ◌≤◌, length};
ghost use Rattle.paper.specs.Answers.{said, accepted, and_then, require};
ghost use Rattle.paper.specs.Reading.{parts};
ghost use Rattle.tray.specs.Seen.{most_seen};
ghost use Rattle.company.specs.Files.{details_fault, amounts_in, closing_good};
ghost use Rattle.company.specs.Sums.{kept, sum_in};
ghost use Rattle.company.specs.Seen.{company_begun, CompanyMore, counted_on, CompanyOn, CompanyTells};

use crate::{Company, close, judge, lo_good};
use field::place::Record;
use paper::answer::{Fault, Refusal};
use paper::rules::Currency;
use tray::{pieces, record_at};

// What is known after some pieces.
#[derive(Clone, Copy)]
pub struct Pieces {
    currency: Currency,
    // all records judged as details: their sum, as a field of ten digits can tell it, or the first fault
    going: Result<u64, Refusal>,
    // the first fault where the last of them closes the file
    ending: Result<(), Refusal>,
    // whole records
    records: usize,
    // bytes after the last whole record
    left: usize,
}

// Details that come after others, unless there was a fault before.
#[tactic(auto, using(paper::proofs::Chained::chained))]
fn judge_on(
    before: Result<u64, Refusal>,
    currency: Currency,
    lo: &[u8],
    file: &[u8],
    details: usize,
    from: usize,
) -> Result<u64, Refusal>
    requires { (length lo.now ≡ 94) × (details * 250 ≤ length file.now) × (from ≤ 2 ^ 61) }
    ensures first_fault { said result ≡ and_then (said before) (details_fault currency lo.now from (parts 250 details file.now)) }
    ensures total { said result ≡ accepted → sum_in result ≡ kept (sum_in before + amounts_in (parts 250 details file.now)) }
{
    judge(currency, lo, file, details, from, before?)
}

// The closing record after others, unless there was a fault before.
#[tactic(auto, using(paper::proofs::Chained::chained))]
fn close_on(before: Result<u64, Refusal>, rec: &[u8], details: usize) -> Result<(), Refusal>
    requires { length rec.now ≡ 250 }
    ensures { said result ≡ and_then (said before) (require (closing_good details (sum_in before) rec.now) 17 details) }
{
    close(rec, details, before?)
}

impl Pieces {
    pub fn begun(currency: Currency) -> Pieces
        ensures { result ≡ company_begun currency }
    {
        Pieces {
            currency,
            going: Ok(0),
            ending: Ok(()),
            records: 0,
            left: 0,
        }
    }

    // A piece of one record or more, under an LO body.
    fn further(self, lo: &[u8], piece: &[u8]) -> Pieces
        requires { (length lo.now ≡ 94) × (250 ≤ length piece.now) × (self.records ≤ most_seen) }
        ensures { CompanyMore self lo.now piece.now result }
    {
        let last = piece.len() / Company::RECORD - 1;
        let place = self.records + last;
        let rec = record_at::<{ Company::RECORD }>(piece, last);
        let inner = judge_on(self.going, self.currency, lo, piece, last, self.records);
        Pieces {
            going: judge_on(inner, self.currency, lo, rec, 1, place),
            ending: close_on(inner, rec, place),
            records: place + 1,
            left: piece.len() % Company::RECORD,
            ..self
        }
    }

    // Of a piece that is not judged, how much it is.
    fn counted(self, piece: &[u8]) -> Pieces
        requires { self.records ≤ most_seen }
        ensures { result ≡ counted_on self piece.now }
    {
        Pieces {
            records: self.records + piece.len() / Company::RECORD,
            left: piece.len() % Company::RECORD,
            ..self
        }
    }

    // The next piece of the file, under that LO body.
    #[tactic(auto, using(std::proofs::lemmas::Bool::Decides::nat_tests))]
    pub fn read(self, lo: &[u8], piece: &[u8]) -> Pieces
        ensures { CompanyOn self lo.now piece.now result }
    {
        if self.records > pieces::Pieces::MOST {
            return self;
        }
        if lo.len() != Record::LENGTH || piece.len() < Company::RECORD {
            return self.counted(piece);
        }
        self.further(lo, piece)
    }

    // 201, 207, the first fault of the records, and last 206. Nothing can be told of a file without end.
    #[tactic(auto, using(paper::proofs::Chained::chained, std::proofs::lemmas::Bool::Decides::nat_tests))]
    pub fn answer(self, lo: &[u8]) -> Option<Refusal>
        ensures { CompanyTells self lo.now result }
    {
        if self.records > pieces::Pieces::MOST {
            return None;
        }
        if self.records == 0 || self.left != 0 {
            return Some(Fault::Length.at(0));
        }
        if !lo_good(lo) {
            return Some(Fault::Tray.at(0));
        }
        Some(self.ending.err().unwrap_or(Fault::Room.at(0)))
    }
}
