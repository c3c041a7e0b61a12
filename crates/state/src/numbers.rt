// Whether an individual record's number is new in the file.
ghost use Rattle.std.specs.Prelude.{◌⊎◌, ◌≡◌, true, ℕ, ◌*◌, ◌+◌, ◌≤◌, ◌<◌, length};
ghost use Rattle.paper.specs.Fields.{among};
ghost use Rattle.paper.specs.Kinds.{is_individual, kind_of};
ghost use Rattle.paper.specs.Records.{number_in};
ghost use Rattle.paper.specs.Reading.{record_at};
ghost use Rattle.repeats.specs.Numbers.{numbers_before, FreshTo};
ghost use Rattle.state.specs.States.{NumberSays};

use paper::answer::Fault;

// It is, and so are those up to the place answered; or it stood before.
// `highest` is the largest of the batches before: a number above it needs no look, since it is above those of its own batch too.
pub fn judge(
    file: &[u8],
    place: usize,
    number: u64,
    highest: u64,
    known: usize,
) -> Result<usize, Fault>
    requires file_len_bound { (length file.now ≤ 940000) × (place * 94 + 94 ≤ length file.now) × (0 < place) }
    requires place_value { (is_individual (kind_of (record_at file.now place)) ≡ true) × (number ≡ number_in (record_at file.now place)) }
    requires by_index { (n : ℕ) → among (numbers_before file.now place) n ≡ true → (n ≤ highest) ⊎ (n < number) }
    requires fresh_to { FreshTo file.now place known }
    ensures { NumberSays file.now place number highest known result }
{
    if number > highest {
        return Ok(known);
    }
    let fresh = repeats::fresh(file, place, known);
    if fresh == place {
        return Err(Fault::Counter);
    }
    Ok(fresh)
}
