//! What the tests of this crate compare by: each ends its test if a comparison fails, and names the row. A
//! library may end no process, so each crate of tests has these for itself.

use std::fmt::Debug;
use std::process::Abort;

// The two must be equal.
pub fn same<T: PartialEq + Debug + Drop>(rt: &impl Abort, name: &str, found: T, expected: T) {
    assert!(rt;
        found == expected,
        "{name}: {found:?} in place of {expected:?}"
    );
}

// This must hold.
pub fn holds(rt: &impl Abort, name: &str, it_holds: bool) {
    assert!(rt; it_holds, "{name}");
}
