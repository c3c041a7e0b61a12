// Companies' files made into trays. No session is opened for them.
ghost use Rattle.std.specs.Prelude.{◌≡◌};
ghost use Rattle.paper.specs.Listing.{currency_if};
ghost use Rattle.company.specs.Files.{company};
ghost use Rattle.export.specs.Spoken.{delivered_of};

use crate::{Spoken, currency, speak};

// The tray of a company's file, under this LO body.
#[tactic(auto, using(crate::proofs::Jobs::delivered_told))]
pub fn shaydhoqel_company(dollars: bool, lo: &[u8], file: &[u8], out: &mut [u8]) -> Spoken
    ensures { delivered_of (company (currency_if dollars) lo.now file.now out.old)
        ≡ record { spoken = result; lent = out.new } }
{
    speak(company::tray(currency(dollars), lo, file, out))
}
