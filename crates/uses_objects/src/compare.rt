//! The one comparison of the tests.
use std::fmt::Debug;
use std::process::Abort;

/// Ends the test where what is told is not what is wanted, and prints which case it is, and both.
pub fn same<T: PartialEq + Debug + Copy>(
    rt: &impl Abort,
    label: impl Debug + Copy,
    told: T,
    wanted: T,
) {
    assert_eq!(rt; told, wanted, "at {label:?}");
}
