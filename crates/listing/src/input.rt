// What the program takes from its one file: the date and the currency.
ghost use Rattle.std.specs.Prelude.{◌≡◌};
ghost use Rattle.paper.specs.Listing.{date_in, currency_in};

use characters::number;
use desk::Session;
use field::{date, entity};
use paper::rules::Currency;

// The header's date, or 000101 if that is none.
#[tactic(auto, using(std::proofs::lemmas::Bool::Decides::nat_tests), unfolding(paper::specs::Listing::date_in, paper::specs::Listing::has_header))]
pub fn date(file: &[u8]) -> u64
    ensures { result ≡ date_in file.now }
{
    if file.len() < Session::RECORD {
        return Session::FIRST_DATE;
    }
    if !date::date(file, 24, 29) {
        return Session::FIRST_DATE;
    }
    number::number(file, 24, 29)
}

// Dollars where 15-18 are digits from 0501 to 0999, else pesos.
#[tactic(auto, using(std::proofs::lemmas::Bool::Decides::nat_tests), unfolding(paper::specs::Listing::currency_in, paper::specs::Listing::has_header))]
pub fn currency(file: &[u8]) -> Currency
    ensures { result ≡ currency_in file.now }
{
    if file.len() < Session::RECORD {
        return Currency::Pesos;
    }
    if entity::of_currency(Currency::Dollars, file, 15, 22) {
        return Currency::Dollars;
    }
    Currency::Pesos
}
