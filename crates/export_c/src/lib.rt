// The library for programs in C: each function of `export`, under the name by which C calls it.
#![tactic(auto)]

ghost use Rattle.std.specs.Prelude.{◌≡◌};
ghost use Rattle.paper.specs.Buffers.{building, extracting, stripping};
ghost use Rattle.paper.specs.Listing.{currency_if, positions_of};
ghost use Rattle.company.specs.Files.{company};
ghost use Rattle.listing.specs.Room.{Written};
ghost use Rattle.export.specs.Spoken.{delivered_of, in_session, read_of};
ghost use Rattle.export.specs.Day.{day_of, day_listed};
ghost use Rattle.export.specs.Member.{heard_text, receive_of, show_of, reasons_of};

use export::Spoken;
use export::member::SpokenText;
use listing::Listing;

// A file read in a session opened with this date, currency and list of entities: 0 and the number of records, or the refusal.
#[unsafe(no_mangle)]
pub extern "C" fn shaydhoqel_read(date: u64, dollars: bool, entities: &[u64], file: &[u8]) -> Spoken
    ensures { read_of date dollars entities.now file.now ≡ record { spoken = result; lent = tt } }
{
    export::shaydhoqel_read(date, dollars, entities, file)
}

// What the program `positions` prints for this input, and how many bytes that is.
#[unsafe(no_mangle)]
pub extern "C" fn shaydhoqel_listing(input: &[u8], out: &mut [u8; Listing::ROOM]) -> u64
    ensures { Written (positions_of input.now) result out.old out.new }
{
    export::shaydhoqel_listing(input, out)
}

// File i is the bytes of `files` from the end of the one before up to ends[i]. The opening's answer comes back; where it is accepted, the
// others stand in `answers`, two numbers each, and the figures of the cells at the end in `figures`, at the indices of `export::Figure`.
#[unsafe(no_mangle)]
pub extern "C" fn shaydhoqel_day(
    date: u64,
    dollars: bool,
    entities: &[u64],
    ends: &[u64],
    files: &[u8],
    answers: &mut [u64],
    figures: &mut [i64],
) -> Spoken
    ensures { day_of date dollars entities.now ends.now files.now
        record { answers = answers.old; figures = figures.old }
        ≡ record { spoken = result; lent = record { answers = answers.new; figures = figures.new } } }
{
    export::day::shaydhoqel_day(date, dollars, entities, ends, files, answers, figures)
}

// The listing of the session at the end of such a day, whatever the last answer was: 0 and the number of bytes, or the opening's refusal.
#[unsafe(no_mangle)]
pub extern "C" fn shaydhoqel_day_listing(
    date: u64,
    dollars: bool,
    entities: &[u64],
    ends: &[u64],
    files: &[u8],
    out: &mut [u8; Listing::ROOM],
) -> Spoken
    ensures { day_listed date dollars entities.now ends.now files.now out.old
        ≡ record { spoken = result; lent = out.new } }
{
    export::day::shaydhoqel_day_listing(date, dollars, entities, ends, files, out)
}

// An extract in a session opened with this date, currency and list of entities.
#[unsafe(no_mangle)]
pub extern "C" fn shaydhoqel_extract(
    date: u64,
    dollars: bool,
    entities: &[u64],
    entity: u64,
    file: &[u8],
    out: &mut [u8],
) -> Spoken
    ensures { in_session date dollars entities.now out.old
        (λ session. delivered_of (extracting session.rules entity file.now out.old))
        ≡ record { spoken = result; lent = out.new } }
{
    export::extracts::shaydhoqel_extract(date, dollars, entities, entity, file, out)
}

// A file built in such a session.
#[unsafe(no_mangle)]
pub extern "C" fn shaydhoqel_build(
    date: u64,
    dollars: bool,
    entities: &[u64],
    header: &[u8],
    tray: &[u8],
    out: &mut [u8],
) -> Spoken
    ensures { in_session date dollars entities.now out.old
        (λ session. delivered_of (building session.rules header.now tray.now out.old))
        ≡ record { spoken = result; lent = out.new } }
{
    export::trays::shaydhoqel_build(date, dollars, entities, header, tray, out)
}

// The tray of a file, in such a session.
#[unsafe(no_mangle)]
pub extern "C" fn shaydhoqel_strip(
    date: u64,
    dollars: bool,
    entities: &[u64],
    file: &[u8],
    out: &mut [u8],
) -> Spoken
    ensures { in_session date dollars entities.now out.old
        (λ session. delivered_of (stripping session.rules file.now out.old))
        ≡ record { spoken = result; lent = out.new } }
{
    export::trays::shaydhoqel_strip(date, dollars, entities, file, out)
}

// The tray of a company's file, under this LO body. No session is opened for it.
#[unsafe(no_mangle)]
pub extern "C" fn shaydhoqel_company(
    dollars: bool,
    lo: &[u8],
    file: &[u8],
    out: &mut [u8],
) -> Spoken
    ensures { delivered_of (company (currency_if dollars) lo.now file.now out.old)
        ≡ record { spoken = result; lent = out.new } }
{
    export::companies::shaydhoqel_company(dollars, lo, file, out)
}

// A file received by the desk of an entity, in a session opened with this date, currency and list of entities: 0 and the number of records,
// or the refusal.
#[unsafe(no_mangle)]
pub extern "C" fn shaydhoqel_receive(
    date: u64,
    dollars: bool,
    entities: &[u64],
    entity: u64,
    file: &[u8],
) -> Spoken
    ensures { receive_of date dollars entities.now entity file.now ≡ record { spoken = result; lent = tt } }
{
    export::member::shaydhoqel_receive(date, dollars, entities, entity, file)
}

// Where the text of the reason in one record of such a file stands.
#[unsafe(no_mangle)]
pub extern "C" fn shaydhoqel_show(
    date: u64,
    dollars: bool,
    entities: &[u64],
    entity: u64,
    file: &[u8],
    motives: &[u8],
    record: u64,
) -> SpokenText
    ensures { show_of date dollars entities.now entity file.now motives.now «record» ≡ heard_text result }
{
    export::member::shaydhoqel_show(date, dollars, entities, entity, file, motives, record)
}

// The same of all its records, asked once: two numbers for each in `texts`, source and byte, and 0 and the number of records.
#[unsafe(no_mangle)]
pub extern "C" fn shaydhoqel_reasons(
    date: u64,
    dollars: bool,
    entities: &[u64],
    entity: u64,
    file: &[u8],
    motives: &[u8],
    texts: &mut [u64],
) -> Spoken
    ensures { reasons_of date dollars entities.now entity file.now motives.now texts.old
        ≡ record { spoken = result; lent = texts.new } }
{
    export::member::shaydhoqel_reasons(date, dollars, entities, entity, file, motives, texts)
}
