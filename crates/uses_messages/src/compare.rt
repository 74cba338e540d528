// What the tests of each file ask.

use std::fmt::Debug;
use std::process::Abort;

// The two are the same.
pub(crate) fn same<T: PartialEq + Debug + Copy>(
    rt: &impl Abort,
    label: impl Debug + Copy,
    told: T,
    wanted: T,
) {
    assert_eq!(rt; told, wanted, "at {label:?}");
}
