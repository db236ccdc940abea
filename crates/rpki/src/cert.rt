//! Certificates, the issuer that a chain of them makes, and making them.

pub use rpki_certs::{
    Cert, IssuerError, KeyUsage, Overclaim, ResourceCert, issued_at, issuer_at, read_cert,
};
pub use rpki_issued::TbsCert;

/// What is signed, in its octets, and claims that are built.
pub mod issued {
    pub use rpki_issued::resources::{build_as_resources, build_ip_resources};
    pub use rpki_issued::signing::{sign_and_join, signing_error_of};
}

/// What the definitions of certificates say.
pub mod laws {
    pub use rpki_certs::laws::{
        certificates, numbers_are_held, octets_after_a_certificate_are_left, refused_anchors,
        refused_certificates, valid_anchors, valid_certificates, written_certificates_are_read,
    };
    pub use rpki_issued::laws::{
        certificates_are_written, claims_of_a_family, extensions_are_written,
    };
}
