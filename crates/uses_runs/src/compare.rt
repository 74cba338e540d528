//! The one comparison of the tests.
use ak_base::Bytes;
use std::process::Abort;
use std::str::from_utf8;

/// Ends the test where other lines are told than are wanted, and prints which case it is, and both.
pub fn same(rt: &impl Abort, label: &str, told: &Bytes, wanted: &str) {
    let told = from_utf8(told.as_slice()).unwrap_or("no text");
    assert_eq!(rt; told, wanted, "{label}");
}
