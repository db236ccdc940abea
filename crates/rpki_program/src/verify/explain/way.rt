//! The way from an object up to a trust anchor, and down again.

use super::End;
use super::given::{Target, TargetKind, octets_in, path_of};
use bytes::Bytes;
use rpki_basics::{Crypto, KeyIdentifier, Rsync, Time};
use rpki_certs::{Cert, ResourceCert};
use rpki_der::DecodeError;
use rpki_relying_party::{
    AnchorFault, Cause, Finding, NoFile, Pass, Place, Places, Reading, Refusal, Repository, Told,
    anchor_of,
};
use rpki_sigobj::SignedObject;
use rpki_tal::Tal;
use std::alloc::{AllocError, Global};
use std::fmt::{Display, Write};

// How many certificates there are at most between a trust anchor and an object.
const MOST_CERTS: usize = 100;

// How much work it is at most to read a publication point: 8 GiB, as under a locator.
const MOST_WORK: u64 = 8_589_934_592;

/// What an explanation is made with: the pass, the folder of its copy, and the lines so far.
#[derive(Drop)]
pub(crate) struct Way<'a, R, C: Crypto> {
    pub alloc: Global,
    pub pass: &'a Pass<'a, R, C>,
    pub folder: &'a str,
    pub out: String,
}

// What a place says: how many payloads of a file, and until when they hold; or why the file or the
// point is refused; and all CAs that it lists.
#[derive(Drop)]
struct Said {
    payloads: u64,
    until: Option<Time>,
    cause: Option<Cause>,
    children: Vec<Place>,
}

// What a certificate says of its issuer: the identifier of its key, and the URI of its certificate.
#[derive(Drop)]
struct Issuer {
    key: Option<KeyIdentifier>,
    uri: Option<Rsync>,
}

// What a certificate says of its issuer.
fn issuer_of(cert: &Cert) -> Result<Issuer, DecodeError> {
    let key = cert.authority_key_identifier();
    match cert.ca_issuer() {
        None => Ok(Issuer { key, uri: None }),
        Some(uri) => {
            let uri = Some(uri.clone()?);
            Ok(Issuer { key, uri })
        }
    }
}

// What the certificate in octets says of its issuer, or that of the signer of the object in them.
fn issuer_in(alloc: Global, octets: Bytes, is_cert: bool) -> Result<Issuer, DecodeError> {
    if is_cert {
        let cert = Cert::decode(alloc, octets)?;
        let issuer = issuer_of(&cert);
        drop(cert);
        issuer
    } else {
        let object = SignedObject::decode(alloc, octets, true)?;
        let issuer = issuer_of(object.cert());
        drop(object);
        issuer
    }
}

// Whether two URIs are the same.
fn is_same(a: &Rsync, b: &Rsync) -> bool {
    a.as_slice() == b.as_slice()
}

// The cause of a refusal, if that is of a point, or of this file.
fn cause_for(refusal: Refusal, file: &Rsync) -> Option<Cause> {
    let Refusal { uri, cause, under } = refusal;
    drop(under);
    let is_for = match &cause {
        Cause::Manifest(_) | Cause::List(_) | Cause::File(_, _) => true,
        _ => is_same(&uri, file),
    };
    if is_for { Some(cause) } else { None }
}

// What a place that told this says of a file.
fn said_of(told: Told<Place, Finding>, file: &Rsync) -> Said {
    let Told { said, children, .. } = told;
    let (mut payloads, mut until, mut cause) = (0_u64, None, None);
    for finding in said {
        match finding {
            Finding::Payload(_, held) => {
                if is_same(&held.object, file) {
                    payloads = payloads.saturating_add(1);
                    until = Some(held.until);
                }
            }
            Finding::Refusal(boxed) => {
                if let Some(found) = cause_for(boxed.into_refusal(), file) {
                    cause = Some(found);
                }
            }
        }
    }
    Said {
        payloads,
        until,
        cause,
        children,
    }
}

// The CA that has this certificate.
fn child_with(children: Vec<Place>, cert: &Cert) -> Option<Place> {
    for child in children {
        if child.ca.cert().signed() == cert.signed() {
            return Some(child);
        }
        drop(child);
    }
    None
}

impl<R: Repository, C: Crypto> Way<'_, R, C> {
    // Writes the line of a step that is good.
    fn good(&mut self, step: &str, name: &str) -> Result<(), AllocError> {
        write!(self.out, "{step} {name}: good\n")
    }

    // Writes the line of a step that is not, with its cause. The answer is no.
    fn fail<D: Display>(&mut self, step: &str, name: &str, cause: &D) -> End {
        match write!(self.out, "{step} {name}: {cause}\n") {
            Ok(()) => End::No,
            Err(_) => End::Memory,
        }
    }

    // What was decoded, or the line that it is malformed.
    fn decoded<T>(
        &mut self,
        step: &str,
        name: &str,
        read: Result<T, DecodeError>,
    ) -> Result<T, End> {
        match read {
            Ok(value) => Ok(value),
            Err(DecodeError::Memory) => Err(End::Memory),
            Err(_) => Err(self.fail(step, name, &"malformed")),
        }
    }

    // The octets that the copy has for a URI, or why it has none.
    fn read(&self, uri: &Rsync) -> Result<Result<Bytes, NoFile>, AllocError> {
        Ok(octets_in(self.pass.copy.read(self.alloc, uri.as_slice(), u64::MAX)?))
    }

    // The octets of a certificate that is above another one.
    fn read_above(&mut self, uri: &Rsync) -> Result<Bytes, End> {
        match self.read(uri)? {
            Ok(octets) => Ok(octets),
            Err(why) => {
                let (folder, path) = (self.folder, path_of(uri));
                let cause = format!(in self.alloc; "{why}, looked for {folder}/{path}")?;
                Err(self.fail("certificate", uri.as_str(), &cause))
            }
        }
    }

    /// Explains something under the locator in the file of this name.
    pub(crate) fn explain(
        &mut self,
        tal: &str,
        locator: &Tal,
        target: &Target<'_>,
    ) -> Result<(), End> {
        match anchor_of(self.alloc, self.pass, locator) {
            Err(AnchorFault::Memory) => Err(End::Memory),
            Err(fault) => Err(self.fail("anchor", tal, &fault)),
            Ok(anchor) => match self.good("anchor", tal) {
                Ok(()) => self.explain_under(anchor, target),
                Err(error) => {
                    drop(anchor);
                    Err(End::from(error))
                }
            },
        }
    }

    // Explains something under a trust anchor.
    fn explain_under(&mut self, anchor: ResourceCert, target: &Target<'_>) -> Result<(), End> {
        match self.chain_under(&anchor, target) {
            Ok(Some(chain)) => {
                let place = self.descend(anchor, &chain)?;
                let explained = self.explain_at(&place, target);
                drop(place);
                explained
            }
            Ok(None) => {
                drop(anchor);
                let word = target.word;
                Ok(write!(
                    self.out,
                    "yes: {word} is the certificate of the trust anchor\n"
                )?)
            }
            Err(end) => {
                drop(anchor);
                Err(end)
            }
        }
    }

    // The URIs of the certificates above, up to that of a trust anchor; or none where what is
    // explained is that one.
    fn chain_under(
        &mut self,
        anchor: &ResourceCert,
        target: &Target<'_>,
    ) -> Result<Option<Vec<Rsync>>, End> {
        let kind = target.kind();
        if kind == TargetKind::Other {
            let why = "no payloads come from a file of its kind";
            return Err(self.fail("object", target.word, &why));
        }
        if kind == TargetKind::Certificate && self.is_same_cert(target, anchor.cert())? {
            return Ok(None);
        }
        let key = anchor.cert().subject_key_identifier();
        Ok(Some(self.climb(target, key)?))
    }

    // Explains something below the place of its issuer.
    fn explain_at(&mut self, place: &Place, target: &Target<'_>) -> Result<(), End> {
        match target.kind() {
            TargetKind::Certificate => self.explain_cert(place, target),
            _ => self.explain_object(place, target),
        }
    }

    // Whether what is explained is this certificate.
    fn is_same_cert(&mut self, target: &Target<'_>, other: &Cert) -> Result<bool, End> {
        let read = Cert::decode(self.alloc, target.octets.clone()?);
        let cert = self.decoded("certificate", target.word, read)?;
        let is_same = cert.signed() == other.signed();
        drop(cert);
        Ok(is_same)
    }

    // The URIs of the certificates above, the issuer's first, up to that which this key issued, as
    // each says.
    fn climb(&mut self, target: &Target<'_>, anchor: KeyIdentifier) -> Result<Vec<Rsync>, End> {
        let mut chain: Vec<Rsync> = Vec::new(self.alloc);
        let mut octets = target.octets.clone()?;
        for _ in 0..=MOST_CERTS {
            let (name, is_cert) = match chain.last() {
                None => (target.word, target.kind() == TargetKind::Certificate),
                Some(uri) => (uri.as_str(), true),
            };
            let step = if is_cert { "certificate" } else { "object" };
            let read = issuer_in(self.alloc, octets, is_cert);
            let Issuer { key, uri } = self.decoded(step, name, read)?;
            if key == Some(anchor) {
                return Ok(chain);
            }
            let Some(uri) = uri else {
                return Err(self.fail(step, name, &"names no issuer, and is not the trust anchor"));
            };
            let above = uri.as_str();
            write!(self.out, "issuer of {name}: {above}\n")?;
            if chain.iter().any(|other| is_same(other, &uri)) {
                return Err(self.fail("certificate", above, &"is above itself"));
            }
            octets = self.read_above(&uri)?;
            chain.push(uri)?;
        }
        Err(self.fail(
            "object",
            target.word,
            &"more than 100 certificates are above it",
        ))
    }

    // The place at the end of a chain, the lowest of which comes first, under a trust anchor.
    fn descend(&mut self, anchor: ResourceCert, chain: &[Rsync]) -> Result<Place, End> {
        let until = anchor.cert().validity().not_after();
        let mut place = Place {
            ca: anchor,
            until,
            listed_by: None,
        };
        for uri in chain.iter().rev() {
            let child = self.child_below(&place, uri);
            drop(place);
            place = child?;
        }
        Ok(place)
    }

    // The place of the CA whose certificate has this URI, in the point of a place.
    fn child_below(&mut self, place: &Place, uri: &Rsync) -> Result<Place, End> {
        let octets = self.read_above(uri)?;
        self.child_at(place, uri, octets)
    }

    // What the point of a place says of a file with this URI and these octets: the lines up to that
    // of the file.
    fn visit(&mut self, place: &Place, uri: &Rsync, octets: &Bytes) -> Result<Said, End> {
        let Some(manifest) = place.ca.cert().rpki_manifest() else {
            return Err(self.fail("entry", uri.as_str(), &"its issuer names no manifest"));
        };
        let Reading::Told(told) = self.pass.read(self.alloc, place, MOST_WORK)? else {
            return Err(self.fail("manifest", manifest.as_str(), &"not read: limit reached"));
        };
        let said = said_of(told, uri);
        self.tell_point(manifest.as_str(), said.cause.as_ref())?;
        match self.read(uri)? {
            Err(why) => Err(self.fail("entry", uri.as_str(), &why)),
            Ok(there) => {
                if there.as_slice() == octets.as_slice() {
                    Ok(said)
                } else {
                    Err(self.fail("entry", uri.as_str(), &"the copy has another file"))
                }
            }
        }
    }

    // The lines of a manifest, of its revocation list, and of the file for which it is refused.
    fn tell_point(&mut self, manifest: &str, cause: Option<&Cause>) -> Result<(), End> {
        if let Some(Cause::Manifest(fault)) = cause {
            return Err(self.fail("manifest", manifest, fault));
        }
        self.good("manifest", manifest)?;
        match cause {
            Some(Cause::List(fault)) => Err(self.fail("list of", manifest, fault)),
            Some(Cause::File(uri, fault)) => Err(self.fail("entry", uri.as_str(), fault)),
            _ => Ok(self.good("list of", manifest)?),
        }
    }

    // The place of the CA whose certificate has this URI and these octets, in the point of a place.
    fn child_at(&mut self, place: &Place, uri: &Rsync, octets: Bytes) -> Result<Place, End> {
        let name = uri.as_str();
        let Said {
            cause,
            children,
            ..
        } = self.visit(place, uri, &octets)?;
        if let Some(cause) = cause {
            drop(children);
            return Err(self.refused_cert(name, octets, &cause));
        }
        let read = Cert::decode(self.alloc, octets);
        match self.decoded("certificate", name, read) {
            Err(end) => {
                drop(children);
                Err(end)
            }
            Ok(cert) => {
                let child = child_with(children, &cert);
                drop(cert);
                self.listed_child(name, child)
            }
        }
    }

    // The lines of a certificate that is refused for this cause.
    fn refused_cert(&mut self, name: &str, octets: Bytes, cause: &Cause) -> End {
        let read = Cert::decode(self.alloc, octets);
        match self.decoded("certificate", name, read) {
            Err(end) => end,
            Ok(cert) => {
                drop(cert);
                match self.good("entry", name) {
                    Err(_) => End::Memory,
                    Ok(()) => self.fail("certificate", name, cause),
                }
            }
        }
    }

    // The CA whose certificate has this URI, if it is listed.
    fn listed_child(&mut self, name: &str, child: Option<Place>) -> Result<Place, End> {
        match child {
            None => Err(self.fail("entry", name, &"no certificate of a CA is listed there")),
            Some(child) => match self.good_child(name) {
                Ok(()) => Ok(child),
                Err(error) => {
                    drop(child);
                    Err(End::from(error))
                }
            },
        }
    }

    // The lines of a CA that is listed.
    fn good_child(&mut self, name: &str) -> Result<(), AllocError> {
        self.good("entry", name)?;
        self.good("certificate", name)
    }

    // Explains a certificate below the place of its issuer.
    fn explain_cert(&mut self, place: &Place, target: &Target<'_>) -> Result<(), End> {
        let word = target.word;
        let uri = self.uri_at(place, target)?;
        drop(self.child_at(place, &uri, target.octets.clone()?)?);
        Ok(write!(self.out, "yes: {word} is the certificate of a CA\n")?)
    }

    // The URI of what is explained, below the place of its issuer.
    fn uri_at(&mut self, place: &Place, target: &Target<'_>) -> Result<Rsync, End> {
        if let Some(folder) = place.ca.cert().ca_repository()
            && let Some(uri) = target.uri_in(self.alloc, folder)?
        {
            return Ok(uri);
        }
        Err(self.fail("entry", target.word, &"is not listed"))
    }

    // Explains an object below the place of its issuer.
    fn explain_object(&mut self, place: &Place, target: &Target<'_>) -> Result<(), End> {
        let word = target.word;
        let uri = self.uri_at(place, target)?;
        let said = self.visit(place, &uri, &target.octets)?;
        match place.ca.cert().rpki_manifest() {
            Some(manifest) if is_same(manifest, &uri) => {
                Ok(write!(
                    self.out,
                    "yes: {word} is good, and all that it lists is there\n"
                )?)
            }
            _ => self.explain_said(word, uri.as_str(), said),
        }
    }

    // Explains what is said of an object whose point is good.
    fn explain_said(&mut self, word: &str, name: &str, said: Said) -> Result<(), End> {
        let Said {
            payloads,
            until,
            cause,
            ..
        } = said;
        if let Some(cause) = cause {
            self.good("entry", name)?;
            return Err(self.fail("object", name, &cause));
        }
        let Some(until) = until else {
            return Err(self.fail("entry", name, &"is not listed, or names nothing"));
        };
        self.good("entry", name)?;
        self.good("object", name)?;
        let noun = if payloads == 1 { "payload" } else { "payloads" };
        Ok(write!(
            self.out,
            "yes: {word} gives {payloads} {noun} until {until}\n"
        )?)
    }
}
