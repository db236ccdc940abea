//! The lines of a signed object.

ghost use Rattle.rpki_sigobj.specs.Signed.{whole_of};
ghost use Rattle.rpki_show.specs.Grows.{Grows};
ghost use Rattle.rpki_show.specs.declared.texts.serial.Hexadecimal.TheVariants.{Octets};
ghost use Rattle.rpki_show.specs.Texts.Object.{object_text, signing_line, signer_line, whole_text};

use crate::kinds::Lines;
use crate::texts::certificate::push_certificate;
use crate::texts::serial::{Hexadecimal, push_hexadecimal};
use rpki_basics::Time;
use rpki_certs::Cert;
use rpki_sigobj::Signed;
use std::alloc::{AllocError, Global};
use std::fmt::Write;

/// Appends the lines of a signed object, with numbers in hexadecimal written so. Refuses where
/// memory runs out.
pub fn push_object<C: Lines>(
    alloc: Global,
    text: &mut String,
    way: Hexadecimal,
    object: &Signed<C>,
) -> Result<(), AllocError>
    ensures { Grows result text.old text.new (object_text way (C.lines way) (whole_of object.now)) }
{
    object.content().push(alloc, text, way)?;
    push_signing(text, object.signed().signing_time())?;
    push_signer(alloc, text, way, object.cert())
}

/// Appends the lines of a signed object, and those of its signer's certificate. Refuses where
/// memory runs out.
pub fn push_whole<C: Lines>(
    alloc: Global,
    text: &mut String,
    object: &Signed<C>,
) -> Result<(), AllocError>
    ensures { Grows result text.old text.new (whole_text (C.lines Octets) (whole_of object.now)) }
{
    push_object(alloc, text, Hexadecimal::Octets, object)?;
    push_certificate(alloc, text, object.cert())
}

/// Appends the line of the moment of signing.
#[tactic(auto, unfolding(crate::specs::Texts::Object::signing_line))]
fn push_signing(text: &mut String, moment: Time) -> Result<(), AllocError>
    ensures { Grows result text.old text.new (signing_line moment) }
{
    write!(text, "signing {moment}\n")
}

/// Appends the line of the certificate of the signer.
#[tactic(auto, unfolding(crate::specs::Texts::Object::signer_line))]
fn push_signer(
    alloc: Global,
    text: &mut String,
    way: Hexadecimal,
    cert: &Cert,
) -> Result<(), AllocError>
    ensures { Grows result text.old text.new (signer_line way cert.now.certificate) }
{
    write!(text, "ee ")?;
    push_hexadecimal(alloc, text, way, cert.serial_number())?;
    let key = cert.subject_key_identifier();
    write!(text, " {key}\n")
}
