// The lines that are printed for answers at the counter.
ghost use Rattle.std.specs.Prelude.{[]};
ghost use Rattle.paper.specs.Answers.{said};
ghost use Rattle.paper.specs.Buffers.{told};
ghost use Rattle.listing.specs.Room.{Written};
ghost use Rattle.listing.specs.Answers.{answer_line, output_line, opening_line, named_line, part_line, word_line};

use crate::{Listing, lines, shown};
use paper::answer::Refusal;

// Of a file read or presented.
#[tactic(auto, using(crate::proofs::Written::written, crate::proofs::AnswerLines::told_lines))]
pub fn answer(answer: Result<(), Refusal>, out: &mut [u8; Listing::LINE]) -> usize
    ensures { Written (answer_line (said answer)) result out.old out.new }
{
    let past_words = lines::answer(out, 0, answer);
    writing::text(out, past_words, b"\n")
}

// Of a job that writes, with the number of bytes.
#[tactic(auto, using(crate::proofs::Written::written, crate::proofs::Written::regrouped), unfolding(crate::specs::Answers::output_line, crate::specs::Answers::bytes_line))]
pub fn output(output: Result<usize, Refusal>, out: &mut [u8; Listing::LINE]) -> usize
    ensures { Written (output_line (told output [])) result out.old out.new }
{
    match output {
        Ok(bytes) => {
            let word = writing::text(out, 0, b"ACCEPTED ");
            let past_bytes = writing::number(out, word, bytes as u64);
            writing::text(out, past_bytes, b" BYTES\n")
        }
        Err(refusal) => lines::refusal(out, 0, refusal),
    }
}

// Of an opening: nothing where it is accepted.
#[tactic(auto, using(crate::proofs::Written::written), unfolding(crate::specs::Answers::opening_line))]
pub fn opening(answer: Result<(), Refusal>, out: &mut [u8; Listing::LINE]) -> usize
    ensures { Written (opening_line (said answer)) result out.old out.new }
{
    match answer {
        Ok(()) => 0,
        Err(refusal) => {
            let word = writing::text(out, 0, b"OPENING ");
            lines::refusal(out, word, refusal)
        }
    }
}

// Of a file presented, with its name behind the answer.
#[tactic(auto, using(crate::proofs::Written::written, crate::proofs::AnswerLines::told_lines), unfolding(crate::specs::Answers::named_line))]
pub fn named(answer: Result<(), Refusal>, name: &[u8], out: &mut [u8; Listing::NAMED]) -> usize
    ensures { Written (named_line (said answer) name.now) result out.old out.new }
{
    let past_answer = lines::answer(out, 0, answer);
    let blank = writing::text(out, past_answer, b" ");
    let past_name = shown::text(out, blank, name, Listing::NAME);
    writing::text(out, past_name, b"\n")
}

// Of what is handed out to an entity, with the number of bytes.
#[tactic(auto, using(crate::proofs::Written::written, crate::proofs::Written::regrouped), unfolding(crate::specs::Answers::part_line))]
pub fn part(entity: u64, bytes: usize, out: &mut [u8; Listing::LINE]) -> usize
    ensures { Written (part_line entity bytes) result out.old out.new }
{
    let past_entity = writing::number(out, 0, entity);
    let blank = writing::text(out, past_entity, b" ");
    let past_bytes = writing::number(out, blank, bytes as u64);
    writing::text(out, past_bytes, b" BYTES\n")
}

// Of a word of a roster's text that is no entity's number, below the opening's line.
#[tactic(auto, using(crate::proofs::Written::written, crate::proofs::AnswerLines::told_lines), unfolding(crate::specs::Answers::word_line))]
pub fn word(place: u64, word: &[u8], out: &mut [u8; Listing::WORD_LINE]) -> usize
    ensures { Written (word_line place word.now) result out.old out.new }
{
    let blank = writing::text(out, 0, b"WORD ");
    let past_place = writing::number(out, blank, place);
    let colon = writing::text(out, past_place, b": ");
    let past_word = shown::text(out, colon, word, Listing::WORD);
    writing::text(out, past_word, b"\n")
}
