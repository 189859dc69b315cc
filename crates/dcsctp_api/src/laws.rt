//! What a user may rely on of the comparisons and the hashes of this crate's types. Each function does
//! nothing: its contract is the law, and holds at every value.

ghost use Rattle.std.specs.Prelude.{◌≡◌, ◌↔◌, ℕ, IsTrue, false};
ghost use Rattle.std.specs.Cmp.{IsTotalOrder};
ghost use Rattle.std.specs.Ordering.{nat_cmp};
ghost use Rattle.dcsctp_api.specs.Cookie.{StateCookieReadsBack};
ghost use Rattle.dcsctp_spec_lemmas.specs.types.Ids.{lifecycle_number};
ghost use Rattle.dcsctp_spec_lemmas.specs.types.declared.ids.LifecycleId.{LifecycleId};
ghost use Rattle.dcsctp_spec_lemmas.specs.types.declared.ids.StreamId.{StreamId};
ghost use Rattle.dcsctp_spec_lemmas.specs.types.declared.ids.PpId.{PpId};
ghost use Rattle.dcsctp_spec_lemmas.specs.types.declared.message.SendOptions.{SendOptions};

use dcsctp_spec_lemmas::types::{LifecycleId, PpId, SendOptions, SocketTime, StreamId};
use std::hash::Hash;

/// Moments are compared by their nanoseconds: `==` holds only of equal ones. `cmp`, `<` and the rest order
/// them as numbers, which is a total order.
pub fn socket_time_order()
    ensures equality { (x y : ℕ) → IsTrue (⟦<SocketTime as PartialEq>⟧.eq x y) ↔ (x ≡ y) }
    ensures order { (x y : ℕ) → ⟦<SocketTime as Ord>⟧.cmp x y ≡ nat_cmp x y }
    ensures operators { (x y : ℕ)
        → ⟦<SocketTime as PartialOrd>⟧.partial_cmp x y ≡ Some (nat_cmp x y) }
    ensures total { IsTotalOrder ⟦<SocketTime as Ord>⟧.cmp }
{}

/// The same for the identifiers of messages.
pub fn lifecycle_id_order()
    ensures equality { (x y : LifecycleId)
        → IsTrue (⟦<LifecycleId as PartialEq>⟧.eq x y) ↔ (x ≡ y) }
    ensures order { (x y : LifecycleId)
        → ⟦<LifecycleId as Ord>⟧.cmp x y ≡ nat_cmp (lifecycle_number x) (lifecycle_number y) }
    ensures operators { (x y : LifecycleId)
        → ⟦<LifecycleId as PartialOrd>⟧.partial_cmp x y
        ≡ Some (nat_cmp (lifecycle_number x) (lifecycle_number y)) }
    ensures total { IsTotalOrder ⟦<LifecycleId as Ord>⟧.cmp }
{}

/// The same for the identifiers of streams.
pub fn stream_id_order()
    ensures equality { (x y : StreamId) → IsTrue (⟦<StreamId as PartialEq>⟧.eq x y) ↔ (x ≡ y) }
    ensures order { (x y : StreamId) → ⟦<StreamId as Ord>⟧.cmp x y ≡ nat_cmp x.0 y.0 }
    ensures operators { (x y : StreamId)
        → ⟦<StreamId as PartialOrd>⟧.partial_cmp x y ≡ Some (nat_cmp x.0 y.0) }
    ensures total { IsTotalOrder ⟦<StreamId as Ord>⟧.cmp }
{}

/// Identifiers of messages that are equal hash alike.
pub fn lifecycle_id_hash()
    ensures { (x y : LifecycleId) → IsTrue (⟦<LifecycleId as PartialEq>⟧.eq x y)
        → ⟦<LifecycleId as Hash>⟧.hash_input x ≡ ⟦<LifecycleId as Hash>⟧.hash_input y }
{}

/// Identifiers of streams that are equal hash alike.
pub fn stream_id_hash()
    ensures { (x y : StreamId) → IsTrue (⟦<StreamId as PartialEq>⟧.eq x y)
        → ⟦<StreamId as Hash>⟧.hash_input x ≡ ⟦<StreamId as Hash>⟧.hash_input y }
{}

/// Identifiers of protocols that are equal hash alike, and `==` holds only of equal ones.
pub fn pp_id_hash()
    ensures equality { (x y : PpId) → IsTrue (⟦<PpId as PartialEq>⟧.eq x y) ↔ (x ≡ y) }
    ensures hash { (x y : PpId) → IsTrue (⟦<PpId as PartialEq>⟧.eq x y)
        → ⟦<PpId as Hash>⟧.hash_input x ≡ ⟦<PpId as Hash>⟧.hash_input y }
{}

/// By default a message is sent in order, without a limit of time or tries, and no events follow it.
pub fn send_options_default()
    ensures { (options : SendOptions) → ⟦<SendOptions as Default>⟧.is_default options
        → options ≡ record {
          unordered = false;
          lifetime = None;
          max_retransmissions = None;
          lifecycle_id = None;
        } }
{}

/// `StateCookie::from_bytes` reads what `StateCookie::serialize` wrote, as the same cookie (RFC 9260, section
/// 5.1.3), if no tag is 0.
pub fn state_cookie_reads_back()
    ensures { StateCookieReadsBack }
{}
