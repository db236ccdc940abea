//! What the definitions say, as functions that do nothing.

ghost use Rattle.std.specs.Prelude.{◌≡◌, ◌<◌, ◌^◌, ℕ, List, true};
ghost use Rattle.rpki_files.specs.Checklist.Files.{is_portable_name};
ghost use Rattle.rpki_files.specs.Name.{IsFileName};
ghost use Rattle.rpki_crls.specs.Crl.{CrlForm, RevocationList};
ghost use Rattle.rpki_der.specs.Text.Hex.{upper_hex};
ghost use Rattle.rpki_der.specs.declared.mode.Mode.{Mode};
ghost use Rattle.rpki_multi.specs.Attestation.{RtaForm, Whole};
ghost use Rattle.rpki_show.specs.Dated.{DatedForm, DatedList, IsDated};
ghost use Rattle.rpki_show.specs.DatedRta.{DatedRtaForm};
ghost use Rattle.rpki_show.specs.Ia5.{ia5_text};
ghost use Rattle.rpki_show.specs.Texts.Serial.{serial_hex, shown_octets};

/// The names of files, of a manifest and of a checklist, are printed as they are.
pub fn names_are_printed()
    ensures manifest { (name : List ℕ) → IsFileName name → ia5_text name ≡ name }
    ensures checklist { (name : List ℕ) → is_portable_name name ≡ true → ia5_text name ≡ name }
{}

/// What is read as a revocation list with the dates of its entries is one, and each revocation list
/// is read so.
pub fn lists_have_dates()
    ensures dated { (mode : Mode) (octets : List ℕ) (list : RevocationList)
        → CrlForm mode octets list
        → (d : DatedList) × DatedForm mode octets d × IsDated list.tbs d }
    ensures plain { (mode : Mode) (octets : List ℕ) (d : DatedList) → DatedForm mode octets d
        → (list : RevocationList) × CrlForm mode octets list × IsDated list.tbs d }
{}

/// Each attestation is read with the dates of the entries of its revocation lists.
pub fn attestations_have_dates()
    ensures { (mode : Mode) (octets : List ℕ) (r : Whole) → RtaForm mode octets r
        → (lists : List DatedList) × DatedRtaForm mode octets
        (record { rta = r; lists = lists }) }
{}

/// The text of a serial number is its octets in upper hexadecimal.
pub fn serials_are_octets()
    ensures { (n : ℕ) → n < 2 ^ 160 → serial_hex n ≡ upper_hex (shown_octets n) }
{}
