//! The numbers of payloads, to be printed.

ghost use Rattle.std.specs.Prelude.{◌≡◌, Some};
ghost use Rattle.rpki_payloads.specs.Texts.Origin.{family_of, prefix_of};

use rpki_relying_party::Origin;
use rpki_resources::{Addr, AddressFamily};
use std::fmt;

// The family with this number in the registry of address families (RFC 3779, section 2.2.3.3).
fn family_of(number: u8) -> AddressFamily
    ensures { result ≡ family_of number }
{
    if number == 1 {
        AddressFamily::Ipv4
    } else {
        AddressFamily::Ipv6
    }
}

/// An origin whose Display is its prefix: the first address, `/` and the length.
#[derive(Clone, Copy)]
pub(crate) struct PrefixOf<'a>(pub(crate) &'a Origin);

impl fmt::Display for PrefixOf<'_> {
    ghost output = { λ p. Some (prefix_of p.0.now) };

    fn fmt<W: fmt::Write>(&self, f: &mut fmt::Formatter<W>) -> fmt::Result {
        let addr = Addr::from_bits(self.0.addr).display(family_of(self.0.family));
        let len = self.0.len;
        write!(f, "{addr}/{len}")
    }
}
