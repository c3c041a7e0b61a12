// Whole records, each over a part of a record's length.
ghost use Rattle.std.specs.Prelude.{◌≡◌, ◌+◌, ◌≤◌, length};
ghost use Rattle.paper.specs.Writing.{numbered, batch_control_of, file_control_of};
ghost use Rattle.writing.specs.Laid.{laid};
ghost use Rattle.batches.specs.Sums.{sums_of};

use characters::text::part;
use controls::file_control::blocks;
use paper::record::Tally;
use writing::{field, spaces, text};

// Digits of a number in positions 88-94, and of the numbers in a control.
const NUMBER: usize = 7;

const BATCH_RECORDS: usize = 6;

const FILE_RECORDS: usize = 8;

const BATCHES: usize = 6;

const BLOCKS: usize = 6;

const DESTINATIONS: usize = 10;

const AMOUNTS: usize = 12;

// Free positions 55-79 of a batch control, 56-94 of a file control.
const BATCH_FREE: usize = 25;

const FILE_FREE: usize = 39;

// Records of a file that are in no batch: its header and its control.
pub const FRAME: usize = 2;

// A record under another number.
pub fn numbered(dst: &mut [u8], rec: &[u8], number: u64)
    requires { (length dst.old ≡ 94) × (length rec.now ≡ 94) }
    ensures { dst.new ≡ numbered number rec.now }
{
    let at = text(dst, 0, part(rec, 1, 87));
    field(dst, at, NUMBER, number);
}

// The sums of a control: destinations, then amounts of both sides.
#[tactic(auto, unfolding(paper::specs::Writing::spelled))]
fn sums(out: &mut [u8], at: usize, tally: Tally) -> usize
    requires { at + 34 ≤ length out.old }
    ensures { (result ≡ at + length (sums_of tally)) × (out.new ≡ laid at (sums_of tally) out.old) }
{
    let debits = field(out, at, DESTINATIONS, tally.destinations);
    let credits = field(out, debits, AMOUNTS, tally.debits);
    field(out, credits, AMOUNTS, tally.credits)
}

// 8, batch control of what stands under a header that has got another number.
#[tactic(auto, unfolding(paper::specs::Writing::spelled, paper::specs::Writing::blanks))]
pub fn batch_control(dst: &mut [u8], header: &[u8], number: u64, tally: Tally)
    requires { (length dst.old ≡ 94) × (length header.now ≡ 94) }
    ensures { dst.new ≡ batch_control_of (numbered number header.now) tally }
{
    let class = text(dst, 0, b"8");
    let records = text(dst, class, part(header, 2, 4));
    let totals = field(dst, records, BATCH_RECORDS, tally.records);
    let tax = sums(dst, totals, tally);
    let free = text(dst, tax, part(header, 41, 50));
    let sender = spaces(dst, free, BATCH_FREE);
    let last = text(dst, sender, part(header, 80, 87));
    field(dst, last, NUMBER, number);
}

// 9, file control of a file of `all` records, this one included.
#[tactic(auto, unfolding(paper::specs::Writing::spelled, paper::specs::Writing::blanks))]
pub fn file_control(dst: &mut [u8], all: u64, batches: u64, tally: Tally)
    requires { (length dst.old ≡ 94) × (all ≤ 10000) }
    ensures { dst.new ≡ file_control_of all batches tally }
{
    let count = text(dst, 0, b"9");
    let tens = field(dst, count, BATCHES, batches);
    let records = field(dst, tens, BLOCKS, blocks(all));
    let totals = field(dst, records, FILE_RECORDS, tally.records);
    let free = sums(dst, totals, tally);
    spaces(dst, free, FILE_FREE);
}
