// The line of a reason: why a debit came back, by the place of the record that says so.
ghost use Rattle.std.specs.Prelude.{◌≡◌, ◌≤◌, length};
ghost use Rattle.listing.specs.Room.{Written};
ghost use Rattle.listing.specs.Reasons.{reason_line, reason_at};

use crate::Listing;
use characters::text;
use field::place::record_at;

// The place of its record, R and its number, and the text, as they stand.
#[tactic(auto, using(crate::proofs::Written::written), unfolding(crate::specs::Reasons::reason_line))]
fn written(place: usize, motive: &[u8], text: &[u8], out: &mut [u8; Listing::REASON]) -> usize
    requires motive_len { length motive.now ≡ 3 }
    requires text_len_bound { length text.now ≤ 44 }
    ensures { Written (reason_line place motive.now text.now) result out.old out.new }
{
    let past_place = writing::number(out, 0, place as u64);
    let blank = writing::text(out, past_place, b" ");
    let past_motive = writing::text(out, blank, motive);
    let next = writing::text(out, past_motive, b" ");
    let past_text = writing::text(out, next, text);
    writing::text(out, past_text, b"\n")
}

// Of the record at a place; nothing where it is no rejection's additional record.
#[tactic(auto, using(paper::proofs::Chained::chained, crate::proofs::Reasons::text_most, crate::proofs::Written::written, std::proofs::lemmas::Bool::Decides::nat_tests), unfolding(crate::specs::Reasons::reason_at, paper::specs::Receiving::shown_if, paper::specs::Receiving::explains_at))]
pub fn line<'a>(
    file: &'a [u8],
    motives: &'a [u8],
    place: usize,
    out: &mut [u8; Listing::REASON],
) -> usize
    requires { length file.now ≤ 940000 }
    ensures { Written (reason_at file.now motives.now place) result out.old out.new }
{
    let Ok(shown) = reasons::find(file, place) else {
        return 0;
    };
    let motive = text::part(record_at(file, place), 4, 6);
    written(place, motive, shown.text(file, motives), out)
}
