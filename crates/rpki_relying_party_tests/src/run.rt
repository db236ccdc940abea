//! Tests of a run under a locator. Each hands on that memory ran out, so `tools/test growth` can
//! refuse each of its allocations in turn.

mod joined;
pub mod octets;
mod reads;
mod reports;
pub mod tree;
