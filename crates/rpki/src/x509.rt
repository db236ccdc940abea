//! Times, serial numbers and names, as certificates and revocation lists have them.

pub use rpki_basics::{
    Clock, FixedClock, Name, Serial, SerialEncoder, Time, TimeEncoder, Validity,
};

/// What is wrong with a time.
pub mod faults {
    pub use rpki_basics::faults::{BAD_TIME, NO_SUCH_TIME};
}

/// What the definitions of times, of serial numbers and of names say.
pub mod laws {
    pub use rpki_basics::laws::{
        key_names_are_written, names, names_are_read_again, serials_are_written, times,
        times_are_ordered, times_are_written,
    };
}
