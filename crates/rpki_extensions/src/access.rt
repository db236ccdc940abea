//! Where more is to be had: access descriptions.

ghost use Rattle.std.specs.Prelude.{◌≡◌, IfOk};
ghost use Rattle.rpki_der.specs.Form.Decodes.{DecodesNext};
ghost use Rattle.rpki_der.specs.Form.Keyed.{first_said};
ghost use Rattle.rpki_der.specs.Form.Made.{made};
ghost use Rattle.rpki_der.specs.Read.Reads.{Reads, Stays};
ghost use Rattle.rpki_extensions.specs.Access.{AuthorityAccessForm, SubjectAccessForm, located};
ghost use Rattle.rpki_extensions.specs.Access.{access_fields_at, accesses_at, issuer_of};
ghost use Rattle.rpki_extensions.specs.Access.{subject_of, authority_access_at};
ghost use Rattle.rpki_extensions.specs.Access.{subject_access_at};

use crate::identifiers::{
    CA_ISSUERS, CA_REPOSITORY, RPKI_MANIFEST, RPKI_NOTIFY, SIGNED_OBJECT, is_same,
};
use crate::name::{GeneralName, take_general_name, uri_of};
use crate::uri::NamedUri;
use rpki_basics::{Https, Rsync};
use rpki_der::{Constructed, DecodeError, ListItem, Oid};
use std::alloc::{AllocError, Global};

/// An access description (RFC 5280, section 4.2.2.1).
#[derive(Debug, Drop)]
pub struct Access {
    /// How to get there.
    pub method: Oid,
    /// Where it lies.
    pub location: GeneralName,
}

/// Where more is to be had from the subject of a certificate (RFC 6487, section 4.8.8).
#[derive(Debug, Drop)]
pub struct SubjectAccess {
    /// The folder in which a CA publishes.
    pub ca_repository: Option<Rsync>,
    /// The manifest of a CA.
    pub rpki_manifest: Option<Rsync>,
    /// The object that is signed by the key.
    pub signed_object: Option<Rsync>,
    /// The notification file of a repository (RFC 8182, section 3.2).
    pub rpki_notify: Option<Https>,
}

impl Clone for SubjectAccess {
    ghost is_clone = { λ x copy. copy ≡ x };

    fn clone(&self) -> Result<SubjectAccess, AllocError> {
        Ok(SubjectAccess {
            ca_repository: self.ca_repository.clone()?,
            rpki_manifest: self.rpki_manifest.clone()?,
            signed_object: self.signed_object.clone()?,
            rpki_notify: self.rpki_notify.clone()?,
        })
    }
}

// Reads the method and the location.
#[tactic(auto, unfolding(crate::specs::Access::access_fields_at))]
fn take_fields(cons: &mut Constructed<'_>) -> Result<Access, DecodeError>
    ensures { Reads (λ access. access) access_fields_at cons.old result cons.new }
{
    let method = cons.take_oid()?;
    let location = take_general_name(cons)?;
    Ok(Access { method, location })
}

impl ListItem for Access {
    ghost use Rattle.rpki_der.specs.Tags.{SEQUENCE};
    ghost use Rattle.rpki_extensions.specs.Access.{access_fields_at, access_at};

    ghost tag = { SEQUENCE };

    ghost at = { access_at };

    fn take_opt_from(
        _alloc: Global,
        cons: &mut Constructed<'_>,
    ) -> Result<Option<Access>, DecodeError> {
        cons.take_opt_sequence(take_fields)
    }
}

// The URI of a description, if it has this method.
fn location_of<U: NamedUri>(access: &Access, method: &[u8]) -> Result<Option<U>, AllocError>
    ensures { IfOk result (λ uri. uri ≡ located U.of method.now access.now) }
{
    if is_same(access.method.as_slice(), method) {
        uri_of(&access.location)
    } else {
        Ok(None)
    }
}

// The first URI of descriptions with this method.
fn first_location<U: NamedUri>(list: &[Access], method: &[u8]) -> Result<Option<U>, AllocError>
    ensures { IfOk result (λ uri. uri ≡ first_said (located U.of method.now) list.now) }
{
    for access in list {
        if let Some(uri) = location_of(access, method)? {
            return Ok(Some(uri));
        }
    }
    Ok(None)
}

// Where the descriptions say that the issuer's certificate lies.
fn issuer_of(list: &[Access]) -> Result<Option<Rsync>, AllocError>
    ensures { IfOk result (λ uri. uri ≡ issuer_of list.now) }
{
    first_location::<Rsync>(list, &CA_ISSUERS)
}

// What the descriptions say of the subject.
fn subject_of(list: &[Access]) -> Result<SubjectAccess, AllocError>
    ensures { IfOk result (λ x. x ≡ subject_of list.now) }
{
    let ca_repository = first_location::<Rsync>(list, &CA_REPOSITORY)?;
    let rpki_manifest = first_location::<Rsync>(list, &RPKI_MANIFEST)?;
    let signed_object = first_location::<Rsync>(list, &SIGNED_OBJECT)?;
    let rpki_notify = first_location::<Https>(list, &RPKI_NOTIFY)?;
    Ok(SubjectAccess {
        ca_repository,
        rpki_manifest,
        signed_object,
        rpki_notify,
    })
}

// Reads as many descriptions as there are, and what they say of the issuer.
fn take_issuer(alloc: Global, cons: &mut Constructed<'_>) -> Result<Option<Rsync>, DecodeError>
    ensures { Reads (λ uri. uri) (made issuer_of accesses_at) cons.old result cons.new }
{
    let list: Vec<Access> = cons.take_items(alloc)?;
    Ok(issuer_of(&list)?)
}

// Reads as many descriptions as there are, and what they say of the subject.
fn take_subject(alloc: Global, cons: &mut Constructed<'_>) -> Result<SubjectAccess, DecodeError>
    ensures { Reads (λ x. x) (made subject_of accesses_at) cons.old result cons.new }
{
    let list: Vec<Access> = cons.take_items(alloc)?;
    Ok(subject_of(&list)?)
}

// Reads what is said of the issuer.
fn take_authority(alloc: Global, cons: &mut Constructed<'_>) -> Result<Option<Rsync>, DecodeError>
    ensures reads { Reads (λ uri. uri) authority_access_at cons.old result cons.new }
    ensures stays { Stays result cons.new }
{
    cons.take_sequence(|cons| take_issuer(alloc, cons))
}

/// Reads where the issuer's certificate lies: the first rsync URI among the access descriptions
/// with the method caIssuers, if there is one (RFC 5280, section 4.2.2.1; RFC 6487, section 4.8.7).
/// Descriptions with other methods and names of other kinds are gone past. That the first one
/// counts, and that there may be none, is this project's own rule. Refuses by `Malformed`, or by
/// `Memory`.
pub fn take_authority_info_access(
    alloc: Global,
    cons: &mut Constructed<'_>,
) -> Result<Option<Rsync>, DecodeError>
    ensures reads { Reads (λ uri. uri) authority_access_at cons.old result cons.new }
    ensures decodes { DecodesNext AuthorityAccessForm (λ uri. uri) cons.old result cons.new }
    ensures stays { Stays result cons.new }
{
    cons.holds_octets();
    take_authority(alloc, cons)
}

// Reads what is said of the subject.
fn take_accesses(alloc: Global, cons: &mut Constructed<'_>) -> Result<SubjectAccess, DecodeError>
    ensures reads { Reads (λ x. x) subject_access_at cons.old result cons.new }
    ensures stays { Stays result cons.new }
{
    cons.take_sequence(|cons| take_subject(alloc, cons))
}

/// Reads where more is to be had from the subject: of each method the first rsync URI, and of
/// rpkiNotify the first https URI, if there is one (RFC 5280, section 4.2.2.2; RFC 6487, section
/// 4.8.8; RFC 8182, section 3.2). Descriptions with other methods and names of other kinds are gone
/// past. That the first one counts, and that there may be none, is this project's own rule. Refuses
/// by `Malformed`, or by `Memory`.
pub fn take_subject_info_access(
    alloc: Global,
    cons: &mut Constructed<'_>,
) -> Result<SubjectAccess, DecodeError>
    ensures reads { Reads (λ x. x) subject_access_at cons.old result cons.new }
    ensures decodes { DecodesNext SubjectAccessForm (λ x. x) cons.old result cons.new }
    ensures stays { Stays result cons.new }
{
    cons.holds_octets();
    take_accesses(alloc, cons)
}
