//! Whole runs: each reliable message arrives once and whole, ordered ones in order. Both sides come to rest
//! with nothing buffered.

use crate::both_ends::link::{Link, Parcel};
use crate::both_ends::messages::Messages;
use crate::both_ends::receiver::Receiver;
use crate::both_ends::sender::Sender;
use dcsctp_send_retransmission::api::Options;
use rand_core::SeedableRng;
use rand_xoshiro::Xoshiro256PlusPlus;
use std::alloc::{AllocError, Global};
use std::process::Abort;
use std::test::Fail;
use std::time::Duration;

// How a run is.
#[derive(Clone, Copy)]
struct Run {
    seed: u64,

    // How many of a hundred chunks are lost, and how many are doubled.
    faults: u32,

    interleaving: bool,
    has_limits: bool,
}

// How many messages a run has.
const COUNT: usize = 300;

// Hands the sender an acknowledgement.
fn take_ack(
    rt: &impl Abort,
    sender: &mut Sender,
    data: &mut Link,
    now: u64,
    parcel: &Parcel,
) -> Result<(), AllocError> {
    match parcel {
        Parcel::Sack {
            cumulative,
            window,
            blocks,
        } => sender.acknowledge(rt, data, now, (*cumulative, *window, blocks.as_slice())),
        Parcel::Data { .. } => Ok(()),
        Parcel::Forward { .. } => Ok(()),
    }
}

// Hands the sender the acknowledgements that have arrived.
fn take_acks(
    rt: &impl Abort,
    sender: &mut Sender,
    acks: &mut Link,
    data: &mut Link,
    now: u64,
) -> Result<(), AllocError> {
    for _ in 0..acks.len() {
        let taken = acks.take(now);
        if let Some(parcel) = &taken {
            take_ack(rt, sender, data, now, parcel)?;
        }
    }
    Ok(())
}

// Sends all messages of a run, until both sides are at rest.
fn runs(rt: &impl Abort, alloc: Global, run: Run) -> Result<(), AllocError> {
    let mut options = Options::default();
    options.rto_max = Duration::from_secs(1);
    options.max_timer_backoff_duration = Some(Duration::from_secs(1));
    let mut rng = Xoshiro256PlusPlus::seed_from_u64(run.seed);
    let mut messages = Messages::plan(alloc, &mut rng, COUNT, run.has_limits)?;
    // Close to where TSNs begin again at 0.
    let first_tsn = 0xffff_ff80;
    let mut sender = Sender::new(alloc, &options, first_tsn, run.interleaving);
    let mut receiver = Receiver::new(alloc, &options, first_tsn);
    let mut data = Link::new(alloc, run.seed.wrapping_add(1_000_000), run.faults);
    let mut acks = Link::new(alloc, run.seed.wrapping_add(2_000_000), run.faults);
    let mut added = 0;
    for tick in 0..200_000u64 {
        let now = 5 * tick;
        if added < messages.count() && sender.queue.total_buffered_amount() < 50_000 {
            let message = messages.message(rt, added)?;
            let how = messages.options(rt, added);
            sender.add(now, message, &how)?;
            added += 1;
        }
        sender.tell(now);
        take_acks(rt, &mut sender, &mut acks, &mut data, now)?;
        sender.flush(rt, &mut data, now)?;
        receiver.receive(rt, &mut data, &mut acks, now, &mut messages)?;
        let is_over = added == messages.count() && data.len() == 0 && acks.len() == 0;
        if is_over && sender.is_at_rest() && receiver.is_at_rest() {
            assert!(rt;
                messages.are_complete(),
                "seed {}: a message is missing",
                run.seed
            );
            return Ok(());
        }
    }
    panic!(rt;
        "seed {}: no rest, {} of {} messages",
        run.seed,
        added,
        messages.count()
    )
}

// Fifty runs, with faults from none to 30 of a hundred.
fn all_run(
    rt: &impl Abort,
    alloc: Global,
    interleaving: bool,
    has_limits: bool,
) -> Result<(), AllocError> {
    for seed in 0..50u64 {
        let faults = (seed % 4) as u32 * 10;
        runs(
            rt,
            alloc,
            Run {
                seed,
                faults,
                interleaving,
                has_limits,
            },
        )?;
    }
    Ok(())
}

#[test]
fn reliable_data_arrives(rt: HostRuntime) -> Result<(), Fail> {
    Ok(all_run(&rt, rt.alloc(), false, false)?)
}

#[test]
fn reliable_interleaved_data_arrives(rt: HostRuntime) -> Result<(), Fail> {
    Ok(all_run(&rt, rt.alloc(), true, false)?)
}

#[test]
fn limited_data_leaves_the_rest_in_order(rt: HostRuntime) -> Result<(), Fail> {
    Ok(all_run(&rt, rt.alloc(), false, true)?)
}

#[test]
fn limited_interleaved_data_leaves_the_rest_in_order(rt: HostRuntime) -> Result<(), Fail> {
    Ok(all_run(&rt, rt.alloc(), true, true)?)
}
