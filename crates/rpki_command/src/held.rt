//! The lines of the files that a manifest holds.

ghost use Rattle.std.specs.Prelude.{◌++◌, map, codes};
ghost use Rattle.rpki_signed.specs.Walk.{at_hand};
ghost use Rattle.rpki_show.specs.Grows.{Grows};
ghost use Rattle.rpki_show.specs.Ia5.{ia5_text};
ghost use Rattle.rpki_command.specs.Held.{held_text};

use rpki_basics::Crypto;
use rpki_files::ManifestContent;
use rpki_show::texts::ia5::Ia5;
use rpki_signed::Walk;
use std::alloc::AllocError;
use std::fmt::Write;

/// Appends a line for each entry of the manifest that these files hold, by the digests of `crypto`.
pub fn push_held<K: Crypto>(
    text: &mut String,
    content: &ManifestContent,
    hand: &[(&[u8], &[u8])],
    crypto: &K,
) -> Result<(), AllocError>
    ensures { Grows result text.old text.new (held_text (K.digest_of crypto.now)
        (map (at_hand (λ name. name.now) (λ octets. octets.now)) hand.now) content.now) }
{
    let mut walk = Walk::new(content, hand, crypto);
    while let Some(entry) = walk.next() {
        push_name(text, entry.file)?;
    }
    Ok(())
}

/// Appends the line of an entry of this name.
fn push_name(text: &mut String, name: &[u8]) -> Result<(), AllocError>
    ensures { Grows result text.old text.new
        (codes "held " ++ (ia5_text name.now ++ codes "\n")) }
{
    let name = Ia5(name);
    write!(text, "held {name}\n")
}
