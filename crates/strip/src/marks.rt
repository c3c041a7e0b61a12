// What a record of a file becomes on a tray.
ghost use Rattle.std.specs.Prelude.{◌≡◌, ◌++◌, ◌≤◌, length};
ghost use Rattle.paper.specs.Buffers.{over};
ghost use Rattle.paper.specs.Trays.{zeroed};
ghost use Rattle.strip.specs.Tray.{on_tray, ToMark};

use characters::text::part;
use field::kind;
use field::place::Record;
use paper::record::Kind;
use tray::Tray;
use writing::text;

// How many bytes that is: those of a tray record, or none.
pub fn bytes(rec: &[u8; Record::LENGTH]) -> usize
    ensures { (result ≡ length (on_tray rec.now)) × (result ≤ 96) }
{
    match kind::kind(rec) {
        Kind::BatchHeader | Kind::Individual | Kind::Additional => Tray::RECORD,
        _ => 0,
    }
}

// A tray record at the front of the buffer, with zeros in its body's 88-94.
fn put(dst: &mut [u8], mark: &[u8], rec: &[u8; Record::LENGTH]) -> usize
    requires { ToMark mark.now rec.now dst.old }
    ensures { (result ≡ 96) × (dst.new ≡ over (mark.now ++ zeroed rec.now) dst.old) }
{
    let body = text(dst, 0, mark);
    let tail = text(dst, body, part(rec, 1, 87));
    text(dst, tail, b"0000000")
}

// A 5, 6 or 7 goes to the front of the buffer, marked; of any other record nothing is written.
pub fn marked(dst: &mut [u8], rec: &[u8; Record::LENGTH]) -> usize
    requires { length (on_tray rec.now) ≤ length dst.old }
    ensures { (result ≡ length (on_tray rec.now)) × (dst.new ≡ over (on_tray rec.now) dst.old) }
{
    match kind::kind(rec) {
        Kind::BatchHeader => put(dst, b"LO", rec),
        Kind::Individual => put(dst, b"IN", rec),
        Kind::Additional => put(dst, b"AD", rec),
        _ => 0,
    }
}
