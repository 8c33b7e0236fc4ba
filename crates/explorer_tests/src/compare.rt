//! What tests compare, with both values where they differ.

use std::fmt::Debug;
use std::process::Abort;

/// Ends a test where two values differ, and says both. An `assert_eq!` is written out, and proved, wherever it stands,
/// which takes most of the time of a test's proof.
pub(crate) fn same<R: Abort, T: PartialEq + Debug>(rt: &R, found: &T, wanted: &T) {
    assert_eq!(rt; found, wanted);
}

/// Ends a test where something does not hold, and says what should.
pub(crate) fn holds<R: Abort>(rt: &R, is_so: bool, what: &str) {
    assert!(rt; is_so, "{what}");
}
