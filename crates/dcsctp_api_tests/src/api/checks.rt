//! What the tests of this crate compare by: each ends its test if a comparison fails, and names the row. A
//! library may end no process, so each crate of tests has these for itself.

use std::alloc::Global;
use std::fmt::Debug;
use std::process::Abort;

// The two must be equal.
pub fn same<T: PartialEq + Debug + Drop>(rt: &impl Abort, name: &str, found: T, expected: T) {
    assert!(rt;
        found == expected,
        "{name}: {found:?} in place of {expected:?}"
    );
}

// `Debug` must write this text of the value.
pub fn shows<T: Debug>(rt: &impl Abort, alloc: Global, name: &str, value: &T, expected: &str) {
    let shown = format!(in alloc; "{value:?}").expect(rt, "memory for the text");
    same(rt, name, shown.as_str(), expected);
}
