//! Whether there is memory, and the marks between which a marked run of scripts/refusals.sh refuses all of it. In
//! every other run a mark is an allocation like any other.

use std::alloc::{AllocError, Global};

/// Is every allocation refused by now?
pub fn is_gone(alloc: Global) -> bool {
    Vec::<u8>::with_capacity(alloc, 1).is_err()
}

/// From here on every allocation is refused. The malloc of the script knows the number of bytes.
pub fn begin_span(alloc: Global) -> Result<(), AllocError> {
    drop(Vec::<u8>::with_capacity(alloc, 100_003)?);
    Ok(())
}

/// Here this ends. The malloc knows this number of bytes, too.
pub fn end_span(alloc: Global) -> Result<(), AllocError> {
    drop(Vec::<u8>::with_capacity(alloc, 100_019)?);
    Ok(())
}
