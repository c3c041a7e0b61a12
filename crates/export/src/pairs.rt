// Two numbers for each of many, in one buffer.
ghost use Rattle.std.specs.Prelude.{◌≡◌};
ghost use Rattle.export.specs.Spoken.{pair_written};

// The two of number i, where there is room for both.
#[tactic(auto, using(std::proofs::lemmas::Bool::Decides::nat_tests), unfolding(crate::specs::Spoken::pair_written))]
pub fn hand_pair(i: usize, first: u64, second: u64, pairs: &mut [u64])
    ensures { pairs.new ≡ pair_written i first second pairs.old }
{
    if i < pairs.len() / 2 {
        pairs[2 * i] = first;
        pairs[2 * i + 1] = second;
    }
}
