// The order that a detail becomes on the tray.
ghost use Rattle.std.specs.Prelude.{◌≡◌, ◌++◌, ◌+◌, ◌<◌, length};
ghost use Rattle.paper.specs.Entities.{currency_adds};
ghost use Rattle.paper.specs.Fields.{bytes};
ghost use Rattle.writing.specs.Laid.{laid};
ghost use Rattle.company.specs.Details.{order_to, order_of};

use crate::detail;
use characters::text::part;
use paper::rules::Currency;
use writing::{field, text};

// Digits of an entity.
const ENTITY: usize = 4;

// An entity's number in the field of a currency.
fn in_field(currency: Currency, entity: u64) -> u64
    requires { entity < 1000 }
    ensures { result ≡ currency_adds currency + entity }
{
    match currency {
        Currency::Pesos => entity,
        Currency::Dollars => Currency::DOLLARS_ADD + entity,
    }
}

// IN and positions 1 to 29.
fn write_to(dst: &mut [u8], currency: Currency, rec: &[u8]) -> usize
    requires { (length dst.old ≡ 96) × (length rec.now ≡ 250) }
    ensures { (result ≡ length (bytes "IN" ++ order_to currency rec.now)) × (result ≡ 31)
        × (dst.new ≡ laid 0 (bytes "IN" ++ order_to currency rec.now) dst.old) }
{
    let whom = text(dst, 0, b"IN637");
    let branch = field(dst, whom, ENTITY, in_field(currency, detail::entity(rec)));
    let reserved = text(dst, branch, part(rec, 37, 40));
    let account = text(dst, reserved, b"0");
    let block = text(dst, account, b"000");
    text(dst, block, part(rec, 45, 58))
}

// IN and the order, over a part of a tray record's length.
pub fn write(dst: &mut [u8], currency: Currency, lo: &[u8], rec: &[u8])
    requires { (length dst.old ≡ 96) × (length lo.now ≡ 94) × (length rec.now ≡ 250) }
    ensures { dst.new ≡ bytes "IN" ++ order_of currency lo.now rec.now }
{
    let amount = write_to(dst, currency, rec);
    let reference = text(dst, amount, part(rec, 104, 113));
    let client = text(dst, reference, part(rec, 89, 103));
    let alone = text(dst, client, part(rec, 59, 80));
    let prefix = text(dst, alone, b"000");
    let tail = text(dst, prefix, part(lo, 80, 87));
    text(dst, tail, b"0000000");
}
