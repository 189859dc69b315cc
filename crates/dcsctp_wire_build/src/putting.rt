//! Adding bytes if there is room.

ghost use Rattle.std.specs.Prelude.{◌≡◌, ◌≤◌, ◌+◌, ◌++◌, length};
ghost use Rattle.std.specs.Vec.{vec_len, vec_capacity};
ghost use Rattle.dcsctp_wire.specs.Format.{padding_of};
ghost use Rattle.dcsctp_wire.specs.Spelling.{zeros};

use dcsctp_wire::padding_of;

/// Adds the bytes. Allocates nothing.
pub(crate) fn put(out: &mut Vec<u8>, bytes: &[u8])
    requires { vec_len out.old + length bytes.now ≤ vec_capacity out.old }
    ensures items { out.new.items ≡ out.old.items ++ bytes.now }
    ensures len { vec_len out.new ≡ vec_len out.old + length bytes.now }
    ensures capacity { vec_capacity out.old ≤ vec_capacity out.new }
{
    out.extend_from_slice(bytes).unwrap();
}

// Adds the padding of that many bytes: most often there is none.
fn put_padding(out: &mut Vec<u8>, len: usize)
    requires { vec_len out.old + padding_of len ≤ vec_capacity out.old }
    ensures items { out.new.items ≡ out.old.items ++ zeros (padding_of len) }
    ensures capacity { vec_capacity out.old ≤ vec_capacity out.new }
{
    if len % 4 != 0 {
        put(out, &[0, 0, 0][..padding_of(len)]);
    }
}

/// Adds bytes, a value after them, and the padding of both. Allocates nothing.
// Inlined, so that the first part of a length that is known is copied without a call.
#[inline(always)]
pub(crate) fn put_padded(out: &mut Vec<u8>, front: &[u8], value: &[u8])
    requires { vec_len out.old + length front.now + length value.now + padding_of
        (length front.now + length value.now) ≤ vec_capacity out.old }
    ensures items { out.new.items ≡ out.old.items ++ (front.now ++ value.now ++ zeros (padding_of
        (length front.now + length value.now))) }
    ensures capacity { vec_capacity out.old ≤ vec_capacity out.new }
{
    put(out, front);
    put(out, value);
    put_padding(out, front.len() + value.len());
}
