// The file header of an extract.
ghost use Rattle.std.specs.Prelude.{◌≡◌, ◌+◌, ◌≤◌, length};
ghost use Rattle.paper.specs.Entities.{currency_adds};
ghost use Rattle.paper.specs.Extract.{header_for};
ghost use Rattle.writing.specs.Laid.{laid};
ghost use Rattle.extract.specs.Header.{destination_for, ToTurn};

use characters::text::part;
use paper::rules::Currency;
use writing::{field, text};

// Digits of an entity's number.
const ENTITY: usize = 4;

fn adds(currency: Currency) -> u64
    ensures { (result ≡ currency_adds currency) × (result ≤ 500) }
{
    match currency {
        Currency::Pesos => 0,
        Currency::Dollars => Currency::DOLLARS_ADD,
    }
}

// Positions 4-13: the entity that the extract is for.
fn destination(dst: &mut [u8], at: usize, currency: Currency, entity: u64) -> usize
    requires { (at + 10 ≤ length dst.old) × (entity ≤ 499) }
    ensures { (result ≡ at + length (destination_for currency entity)) × (dst.new ≡ laid at (destination_for currency entity) dst.old) }
{
    let number = text(dst, at, b" ");
    let branch = field(dst, number, ENTITY, entity + adds(currency));
    text(dst, branch, b"00000")
}

// The sender's header, turned round: its old 4-13 stands in 14-23, and 41-63 and 64-86 are exchanged.
pub fn write(dst: &mut [u8], currency: Currency, entity: u64, header: &[u8])
    requires { ToTurn entity header.now dst.old }
    ensures { dst.new ≡ header_for currency entity header.now }
{
    let for_entity = text(dst, 0, part(header, 1, 3));
    let origin = destination(dst, for_entity, currency, entity);
    let date = text(dst, origin, part(header, 4, 13));
    let first = text(dst, date, part(header, 24, 40));
    let second = text(dst, first, part(header, 64, 86));
    let last = text(dst, second, part(header, 41, 63));
    text(dst, last, part(header, 87, 94));
}
