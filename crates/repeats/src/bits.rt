// A set of numbers in the bits of a row of bytes.
ghost use Rattle.std.specs.Prelude.{◌≡◌, false, ◌||◌, ℕ, ◌*◌, ◌<◌, eqb, length};
ghost use Rattle.repeats.specs.Bits.{has_bit};

// Whether the set holds n.
#[tactic(auto, using(crate::proofs::Set::tested))]
pub fn has(seen: &[u8], n: usize) -> bool
    requires { n < length seen.now * 8 }
    ensures { result ≡ has_bit seen.now n }
{
    seen[n / 8] >> (n % 8) & 1 == 1
}

// n is put in, which was not there.
#[tactic(auto, using(crate::proofs::Set::added_fits, crate::proofs::Set::added))]
pub fn add(seen: &mut [u8], n: usize)
    requires { (n < length seen.old * 8) × (has_bit seen.old n ≡ false) }
    ensures { (k : ℕ) → has_bit seen.new k ≡ (eqb k n || has_bit seen.old k) }
{
    seen[n / 8] += 1 << (n % 8);
}
