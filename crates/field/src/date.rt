// Dates AAMMDD of the years 2000 to 2099, and times HHMM.
ghost use Rattle.std.specs.Prelude.{◌≡◌, ◌+◌};
ghost use Rattle.paper.specs.Fields.{field};
ghost use Rattle.paper.specs.Dates.{month_days, is_date, date_field, time_field};
ghost use Rattle.characters.specs.Part.{HasField};

use characters::{number, text};

// The last day of 2099.
const LAST_DATE: u64 = 991231;

// The days of each month in a common year, from January on: in the place before it there is no month.
const DAYS: [u64; 13] = [0, 31, 28, 31, 30, 31, 30, 31, 31, 30, 31, 30, 31];

const FEBRUARY: u64 = 2;

// Of these years every fourth is a leap year.
pub fn month_days(year: u64, month: u64) -> u64
    ensures { result ≡ month_days year month }
{
    if 12 < month {
        return 0;
    }
    if month == FEBRUARY && year % 4 == 0 {
        return 29;
    }
    DAYS[month as usize]
}

#[tactic(auto, unfolding(paper::specs::Dates::is_date))]
pub fn is_date(n: u64) -> bool
    ensures { result ≡ is_date n }
{
    let year = n / 10000;
    let month = n / 100 % 100;
    let day = n % 100;
    (n <= LAST_DATE) & number::within(1, month_days(year, month), day)
}

// A field that is no number counts as 0, which is no date.
#[tactic(auto, using(crate::proofs::Numbers::date_number))]
pub fn date(rec: &[u8], first: usize, last: usize) -> bool
    requires has_field { HasField rec.now first last }
    requires last_value { last ≡ first + 5 }
    ensures { result ≡ date_field (field rec.now first last) }
{
    is_date(number::number(rec, first, last))
}

#[tactic(auto, using(crate::proofs::Numbers::time_number))]
pub fn time(rec: &[u8], first: usize, last: usize) -> bool
    requires has_field { HasField rec.now first last }
    requires last_value { last ≡ first + 3 }
    ensures { result ≡ time_field (field rec.now first last) }
{
    let n = number::number(rec, first, last);
    let hour = n / 100;
    let minute = n % 100;
    let clock = (hour <= 23) & (minute <= 59);
    text::blank(rec, first, last) | (number::digits(rec, first, last) & clock)
}
