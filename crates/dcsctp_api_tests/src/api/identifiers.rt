//! The numbers by which messages, streams and protocols are named.

use crate::api::checks::{same, shows};
use dcsctp_api::{
    LifecycleId, PpId, StreamId, lifecycle_id_hash, lifecycle_id_order, pp_id_hash, stream_id_hash,
    stream_id_order,
};
use std::hash::{DefaultHasher, Hash, Hasher};

fn hash_of<T: Hash>(x: &T) -> u64 {
    let mut state = DefaultHasher::new();
    x.hash(&mut state);
    state.finish()
}

// The greater of two values, as found by a caller that knows only their order.
pub fn greater<T: Ord + Copy>(x: T, y: T) -> T {
    if x.cmp(&y).is_lt() { y } else { x }
}

#[test]
fn a_lifecycle_id_is_not_zero(rt: HostRuntime) {
    let five = LifecycleId::from(5);
    let four = LifecycleId::from(4);
    let made = (LifecycleId::new(0), LifecycleId::new(5));
    same(&rt, "0 and 5", made, (None, Some(five)));
    same(&rt, "greater", greater(five, four), five);
    same(&rt, "value", (five.value(), four < five), (5, true));
    same(&rt, "hash", hash_of(&five), hash_of(&LifecycleId::from(5)));
    lifecycle_id_order();
    lifecycle_id_hash();
}

#[test]
fn streams_and_protocols_are_compared_by_number(rt: HostRuntime) {
    let (two, ten) = (StreamId(2), StreamId(10));
    let compared = (two < ten, greater(two, ten), PpId(51) != PpId(53));
    same(&rt, "2 is before 10", compared, (true, ten, true));
    let hash = hash_of(&StreamId(7));
    let hashes = (hash, hash_of(&PpId(51)), hash != hash_of(&StreamId(8)));
    let again = (hash_of(&StreamId(7)), hash_of(&PpId(51)), true);
    same(&rt, "hashes", hashes, again);
    stream_id_order();
    stream_id_hash();
    pp_id_hash();
}

#[test]
fn identifiers_print_their_number(rt: HostRuntime) {
    let (stream, protocol, five) = (StreamId(65535), PpId(4_294_967_295), LifecycleId::from(5));
    let texts = format!(in rt.alloc(); "{stream}, {protocol}, {five}").expect(&rt, "memory");
    same(&rt, "Display", texts.as_str(), "65535, 4294967295, 5");
    let identifiers = (stream, PpId(51), five);
    shows(&rt, rt.alloc(), "Debug", &identifiers, "(65535, 51, 5)");
}
