//! The rules that values are read by.

/// The rules that values are read by (X.690, sections 8, 10 and 11.1).
#[derive(Clone, Copy, Debug, PartialEq, Eq)]
pub enum Mode {
    /// Strict: lengths in their shortest form, no indefinite lengths, no strings in pieces, true as
    /// FF alone. Not asked for, by this project's own rule: that unused bits are zeros, that a
    /// default is left out, and that a SET OF is in ascending order (X.690, sections 11.2, 11.5 and
    /// 11.6).
    Der,
    /// Relaxed: also lengths that are longer than need be, indefinite lengths, OCTET STRINGs in
    /// pieces, and true as any octet but 00.
    Ber,
}
