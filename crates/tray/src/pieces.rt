// A tray that no buffer holds, and no file can be built from: looked at in pieces of whole records, it is 207, else 201.
ghost use Rattle.std.specs.Prelude.{◌≡◌, [], ◌≤◌};
ghost use Rattle.paper.specs.Answers.{said, and_then};
ghost use Rattle.paper.specs.Trays.{tray_records, tray_fault};
ghost use Rattle.tray.specs.Seen.{most_seen, Seen, ReadOn, Tells};

use crate::{Tray, fault};
use field::place::Record;
use paper::answer::{Fault, Refusal};

// What is known after some pieces.
#[derive(Clone, Copy)]
pub struct Pieces {
    // 207 at the first bad record
    faults: Result<(), Refusal>,
    // whole records
    records: usize,
    // bytes after the last whole record
    left: usize,
}

// A fault found before stays the answer; the piece begins after so many records.
#[tactic(auto, using(crate::proofs::ByPieces::later_in_file, paper::proofs::Chained::chained))]
fn first_bad(before: Result<(), Refusal>, records: usize, piece: &[u8]) -> Result<(), Refusal>
    requires { records ≤ most_seen }
    ensures { said result ≡ and_then (said before) (tray_fault records (tray_records piece.now)) }
{
    before?;
    match fault(piece) {
        Ok(()) => Ok(()),
        Err(bad) => Err(bad.fault.at(records + bad.place)),
    }
}

impl Pieces {
    // More bytes than 64 bits can count: no tray in memory and no file has so many records.
    pub const MOST: usize = 1 << 60;

    #[tactic(auto, unfolding(paper::specs::Trays::tray_fault, paper::specs::Trays::tray_records, paper::specs::Reading::parts))]
    pub fn begun() -> Pieces
        ensures { Seen result [] }
    {
        Pieces {
            faults: Ok(()),
            records: 0,
            left: 0,
        }
    }

    // The next piece of the tray.
    pub fn read(self, piece: &[u8]) -> Pieces
        ensures { ReadOn self piece.now result }
    {
        if self.records > Pieces::MOST {
            return self;
        }
        Pieces {
            faults: first_bad(self.faults, self.records, piece),
            records: self.records + piece.len() / Tray::RECORD,
            left: piece.len() % Tray::RECORD,
        }
    }

    // The lengths first, then the first bad record, and last 201. Nothing can be told of a tray without end.
    #[tactic(auto, using(paper::proofs::Chained::chained, std::proofs::lemmas::Bool::Decides::nat_tests))]
    pub fn answer(self, header: &[u8]) -> Option<Refusal>
        ensures { Tells self header.now result }
    {
        if self.records > Pieces::MOST {
            return None;
        }
        if header.len() != Record::LENGTH || self.left != 0 {
            return Some(Fault::Tray.at(0));
        }
        Some(self.faults.err().unwrap_or(Fault::Length.at(0)))
    }
}
