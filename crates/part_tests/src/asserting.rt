//! What is found beside what is wanted, compared in one place: an assertion's proof is dear where it stands, and a call
//! of this one isn't.
use std::fmt::Debug;
use std::process::Abort;

/// Ends the test, and shows both, where they differ. Of a table a test hands in what names the row beside either.
pub fn assert_same<T: PartialEq + Debug>(rt: &impl Abort, found: &T, wanted: &T) {
    assert_eq!(rt; *found, *wanted);
}
