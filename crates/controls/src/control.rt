// What both controls share.
ghost use Rattle.std.specs.Prelude.{◌≡◌, ◌%◌, ◌^◌};

// One past the largest number of ten digits.
const TEN_DIGITS: u64 = 10000000000;

pub fn last_ten(n: u64) -> u64
    ensures { result ≡ n % 10 ^ 10 }
{
    n % TEN_DIGITS
}
