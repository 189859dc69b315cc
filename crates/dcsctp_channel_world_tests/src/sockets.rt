//! Schedules of two ends over two sockets.

ghost use Rattle.std.specs.Prelude.{IfOk};
ghost use Rattle.dcsctp_channel_calls.specs.api.types.Settings.{IsValid};
ghost use Rattle.dcsctp_channel_world.specs.Promises.{IsNewSocket};
ghost use Rattle.dcsctp_socket.specs.SocketView.{user_view_of};

use crate::schedules::plays;
use dcsctp_channel_world::ChannelWorld;
use dcsctp_channels::channel_calls::Limits;
use dcsctp_socket::{Options, Socket, SocketFault};
use dcsctp_spec_runs::options_fit;
use rand_core::{Rng, SeedableRng};
use rand_xoshiro::Xoshiro256PlusPlus;
use std::alloc::Global;
use std::process::Abort;
use std::time::Duration;

// How many schedules there are on each network, with each setting.
const SCHEDULES: u64 = 250;

// A closed socket.
fn socket_of<R: Rng + Drop>(
    alloc: Global,
    options: &Options,
    generator: R,
) -> Result<Socket<R>, SocketFault>
    requires { IsValid options.now }
    ensures { IfOk result (λ socket. IsNewSocket (user_view_of R.stream socket)) }
{
    options_fit(options);
    Socket::new(alloc, "end", options, generator)
}

// Two ends, whose sockets draw random words by this seed.
fn world_of(
    rt: &impl Abort,
    alloc: Global,
    seed: u64,
    follow_rfc: bool,
) -> ChannelWorld<Socket<Xoshiro256PlusPlus>> {
    let mut options = Options::default();
    options.follow_rfc = follow_rfc;
    options.enable_message_interleaving = seed % 2 == 0;
    options.heartbeat_interval = Duration::from_secs(0);
    options.max_retransmissions = None;
    options.max_init_retransmits = None;
    assert!(rt; options.is_valid(), "the options are not valid");
    let of_a = Xoshiro256PlusPlus::seed_from_u64(seed.wrapping_mul(2));
    let of_b = Xoshiro256PlusPlus::seed_from_u64(seed.wrapping_mul(2).wrapping_add(1));
    let a = socket_of(alloc, &options, of_a).expect(rt, "no socket");
    let b = socket_of(alloc, &options, of_b).expect(rt, "no socket");
    ChannelWorld::new(alloc, a, b, Limits::standard())
}

// Plays schedules with random seeds.
fn plays_all(rt: &impl Abort, alloc: Global, follow_rfc: bool, rough: u32) {
    for seed in 0..SCHEDULES {
        plays(
            rt,
            alloc,
            world_of(rt, alloc, seed, follow_rfc),
            seed,
            rough,
        );
    }
}

#[test]
fn ends_agree_where_nothing_is_lost(rt: HostRuntime) {
    plays_all(&rt, rt.alloc(), true, 0);
}

#[test]
fn ends_agree_where_a_twelfth_is_lost(rt: HostRuntime) {
    plays_all(&rt, rt.alloc(), true, 8);
}

#[test]
fn ends_agree_where_a_sixth_is_lost(rt: HostRuntime) {
    plays_all(&rt, rt.alloc(), true, 16);
}

#[test]
fn ends_agree_where_a_quarter_is_lost(rt: HostRuntime) {
    plays_all(&rt, rt.alloc(), true, 24);
}

#[test]
fn without_follow_rfc_ends_agree_where_nothing_is_lost(rt: HostRuntime) {
    plays_all(&rt, rt.alloc(), false, 0);
}

#[test]
fn without_follow_rfc_ends_agree_where_a_twelfth_is_lost(rt: HostRuntime) {
    plays_all(&rt, rt.alloc(), false, 8);
}

#[test]
fn without_follow_rfc_ends_agree_where_a_sixth_is_lost(rt: HostRuntime) {
    plays_all(&rt, rt.alloc(), false, 16);
}

#[test]
fn without_follow_rfc_ends_agree_where_a_quarter_is_lost(rt: HostRuntime) {
    plays_all(&rt, rt.alloc(), false, 24);
}
