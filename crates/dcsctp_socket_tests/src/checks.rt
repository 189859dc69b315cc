//! What the tests of this crate compare by: each ends its test if a comparison fails, and names what is compared. A
//! library may end no process, so each crate of tests has these for itself.

use std::fmt::Debug;
use std::process::Abort;

/// The two must be equal.
pub fn same<T: PartialEq + Debug + Drop>(rt: &impl Abort, name: &str, found: T, expected: T) {
    assert!(rt;
        found == expected,
        "{name}: {found:?} in place of {expected:?}"
    );
}
