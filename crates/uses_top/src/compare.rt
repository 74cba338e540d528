//! The comparisons of the tests.
use ak_base::Bytes;
use std::fmt::Debug;
use std::process::Abort;
use std::str::from_utf8;

/// Ends the test where what is told is not what is wanted, and prints which case it is, and both.
pub fn same<T: PartialEq + Debug + Copy>(rt: &impl Abort, label: &str, told: T, wanted: T) {
    assert_eq!(rt; told, wanted, "{label}");
}

/// The same of a text.
pub fn same_text(rt: &impl Abort, label: &str, told: &Bytes, wanted: &str) {
    let told = from_utf8(told.as_slice()).unwrap_or("no text");
    assert_eq!(rt; told, wanted, "{label}");
}
