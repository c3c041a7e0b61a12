// Whether the number of an individual record stands before it in the file.
#![tactic(auto)]

ghost use Rattle.std.specs.Prelude.{◌≡◌, ◌/◌, ◌*◌, ◌+◌, ◌≤◌, ◌<◌, ◌^◌, length};
ghost use Rattle.repeats.specs.Pages.{RoomFor};
ghost use Rattle.repeats.specs.Numbers.{repeated, FirstFrom, FreshTo, Looked};

use field::place::{Record, record_at};
use field::{individual, kind};

pub mod bits;

// Numbers of seven digits.
const NUMBERS: usize = 10000000;

// Six sizes of room: records that there is room for, numbers to a page, and then how many pages and bytes that takes. So few bytes have to
// be cleared for a file of few records.
const SMALLEST: usize = 40;

const SMALLEST_PAGE: usize = 2048;

const SMALLEST_PAGES: usize = NUMBERS / SMALLEST_PAGE + 1;

const SMALLEST_BYTES: usize = SMALLEST * SMALLEST_PAGE / 8;

const SMALLER: usize = 120;

const SMALLER_PAGE: usize = 1024;

const SMALLER_PAGES: usize = NUMBERS / SMALLER_PAGE + 1;

const SMALLER_BYTES: usize = SMALLER * SMALLER_PAGE / 8;

const SMALL: usize = 360;

const SMALL_PAGE: usize = 512;

const SMALL_PAGES: usize = NUMBERS / SMALL_PAGE + 1;

const SMALL_BYTES: usize = SMALL * SMALL_PAGE / 8;

const LARGE: usize = 1080;

const LARGE_PAGE: usize = 512;

const LARGE_PAGES: usize = NUMBERS / LARGE_PAGE + 1;

const LARGE_BYTES: usize = LARGE * LARGE_PAGE / 8;

const LARGER: usize = 3240;

const LARGER_PAGE: usize = 256;

const LARGER_PAGES: usize = NUMBERS / LARGER_PAGE + 1;

const LARGER_BYTES: usize = LARGER * LARGER_PAGE / 8;

const LARGEST: usize = Record::MOST;

const LARGEST_PAGE: usize = 128;

const LARGEST_PAGES: usize = NUMBERS / LARGEST_PAGE + 1;

const LARGEST_BYTES: usize = LARGEST * LARGEST_PAGE / 8;

// The first individual record, from a place on, whose number stands before it; or how many records there are. Each number has a bit. Bits
// are in pages of so many numbers, each taken when the first of its numbers comes.
fn repeated_in(pages: &mut [u16], seen: &mut [u8], page: usize, file: &[u8], from: usize) -> usize
    requires file_len_bound { (length file.now ≤ 940000) × (from ≤ length file.now / 94) }
    requires room_for { RoomFor pages.old seen.old page (length file.now / 94) }
    ensures { FirstFrom (repeated file.now) (length file.now / 94) from result }
{
    let records = file.len() / Record::LENGTH;
    let mut taken: u16 = 0;
    for place in 0..records {
        let rec = record_at(file, place);
        if kind::is_individual(kind::kind(rec)) {
            let n = individual::number(rec) as usize;
            let mine = n / page;
            if pages[mine] == 0 {
                taken += 1;
                pages[mine] = taken;
            }
            let bit = (pages[mine] as usize - 1) * page + n % page;
            if bits::has(seen, bit) {
                if place >= from {
                    return place;
                }
            } else {
                bits::add(seen, bit);
            }
        }
    }
    records
}

// The same with a size of room, new and clear. It is not made part of the function that calls it, whose stack would be touched at every
// reading, whether anybody looks or not.
#[inline(never)]
#[tactic(auto, using(crate::proofs::Pages::room))]
fn in_room<const PAGE: usize, const PAGES: usize, const BYTES: usize>(
    file: &[u8],
    from: usize,
) -> usize
    requires file_len_bound { (length file.now ≤ 940000) × (from ≤ length file.now / 94) }
    requires page_bound { (0 < PAGE) × (PAGE ≤ 4096) × (10000000 ≤ PAGES * PAGE) }
    requires bytes_bound { length file.now / 94 * PAGE ≤ BYTES * 8 }
    requires row_bound { (PAGES ≤ 2 ^ 20) × (BYTES ≤ 2 ^ 20) }
    ensures { FirstFrom (repeated file.now) (length file.now / 94) from result }
{
    let mut pages = [0u16; PAGES];
    let mut seen = [0u8; BYTES];
    repeated_in(&mut pages, &mut seen, PAGE, file, from)
}

// From a place on, the first record whose number stands before it, or how many records there are; `known`, where that tells already. One
// looks once, since the reading stops at what was found.
pub fn fresh(file: &[u8], place: usize, known: usize) -> usize
    requires file_len_bound { (length file.now ≤ 940000) × (place * 94 + 94 ≤ length file.now) × (0 < place) }
    requires fresh_to { FreshTo file.now place known }
    ensures { Looked file.now place known result }
{
    if place <= known {
        return known;
    }
    match file.len() / Record::LENGTH {
        0..=SMALLEST => in_room::<SMALLEST_PAGE, SMALLEST_PAGES, SMALLEST_BYTES>(file, place),
        0..=SMALLER => in_room::<SMALLER_PAGE, SMALLER_PAGES, SMALLER_BYTES>(file, place),
        0..=SMALL => in_room::<SMALL_PAGE, SMALL_PAGES, SMALL_BYTES>(file, place),
        0..=LARGE => in_room::<LARGE_PAGE, LARGE_PAGES, LARGE_BYTES>(file, place),
        0..=LARGER => in_room::<LARGER_PAGE, LARGER_PAGES, LARGER_BYTES>(file, place),
        _ => in_room::<LARGEST_PAGE, LARGEST_PAGES, LARGEST_BYTES>(file, place),
    }
}
