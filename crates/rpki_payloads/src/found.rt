//! What was found under the locators of trust anchors.

ghost use Rattle.std.specs.Prelude.{◌≡◌};

use rpki_relying_party::Found;
use std::marker::Model;

/// The name of locators, and what validation runs found under them.
#[derive(Drop)]
pub struct AnchorFindings<'a> {
    name: &'a str,
    found: &'a Found,
}

impl<'a> Model for AnchorFindings<'a> {
    ghost use Rattle.std.specs.Coded.{codes};
    ghost use Rattle.rpki_relying_party.specs.contracts.found.Found as what_found;
    ghost use Rattle.rpki_payloads.specs.Found.{FoundUnder};

    ghost Value = { FoundUnder };

    ghost coded = { Prim.hlevel (codes, what_found.the_row.coded) };

    ghost view = { λ f. record { name = f.name.now; found = f.found.now } };
}

impl<'a> AnchorFindings<'a> {
    /// This, under the locators of this name: that of their files, without `.tal`.
    pub fn new(name: &'a str, found: &'a Found) -> AnchorFindings<'a>
        ensures { result ≡ record { name = name.now; found = found.now } }
    {
        AnchorFindings { name, found }
    }

    /// The name of the locators.
    pub fn name(&self) -> &'a str
        ensures { result.now ≡ self.now.name }
    {
        self.name
    }

    /// What was found under them.
    pub fn found(&self) -> &'a Found
        ensures { result.now ≡ self.now.found }
    {
        self.found
    }
}
