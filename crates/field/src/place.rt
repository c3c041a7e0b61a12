// Records by their places in a file, from 0.
ghost use Rattle.std.specs.Prelude.{◌≡◌, length};
ghost use Rattle.paper.specs.Reading.{record_at};
ghost use Rattle.field.specs.Places.{InFile};

#[derive(Clone, Copy)]
pub struct Record {}

impl Record {
    // Bytes of a record.
    pub const LENGTH: usize = 94;
    // Records of a file, at most.
    pub const MOST: usize = 10000;
}

// A record is one of the whole pieces of its length that the file has.
#[tactic(auto, using(crate::proofs::Pieces::piece_at, crate::proofs::Pieces::piece_long), unfolding(paper::specs::Reading::record_at))]
pub fn record_at(file: &[u8], place: usize) -> &[u8; Record::LENGTH]
    requires { InFile file.now place }
    ensures { (result.now ≡ record_at file.now place) × (length result.now ≡ 94) }
{
    let (records, _) = file.as_chunks::<{ Record::LENGTH }>();
    &records[place]
}

// A part of a record's length, as a record.
pub fn whole(part: &[u8]) -> &[u8; Record::LENGTH]
    requires { length part.now ≡ 94 }
    ensures { result.now ≡ part.now }
{
    part.first_chunk().unwrap()
}
