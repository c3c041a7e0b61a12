// One byte.
ghost use Rattle.std.specs.Prelude.{◌≡◌, ◌||◌, [], ◌∷◌, ◌==◌};
ghost use Rattle.paper.specs.Fields.{within, among, good, digit, capital};

// From the blank to the low line, but for the four before it that the character set leaves out.
fn printed(b: u8) -> bool
    ensures { result ≡ (within 32 90 b || b == 95) }
{
    matches!(b, 32..=90 | 95)
}

// The other three that it leaves out.
#[tactic(auto, unfolding(paper::specs::Fields::among))]
fn barred(b: u8) -> bool
    ensures { result ≡ among (34 ∷ 38 ∷ 39 ∷ []) b }
{
    matches!(b, 34 | 38..=39)
}

// Two tests joined with no branch: a loop over it is then compiled to many bytes at a time.
pub fn good(b: u8) -> bool
    ensures { result ≡ good b }
{
    printed(b) & !barred(b)
}

#[tactic(auto, unfolding(paper::specs::Fields::digit))]
pub fn digit(b: u8) -> bool
    ensures { result ≡ digit b }
{
    b.is_ascii_digit()
}

#[tactic(auto, unfolding(paper::specs::Fields::capital))]
pub fn capital(b: u8) -> bool
    ensures { result ≡ capital b }
{
    b.is_ascii_uppercase()
}
