//! What the program does at each command, and what it prints of it.

use crate::arguments::{Command, Life, Plan};
use crate::burden::strain_sender;
use crate::chunks::Chunks;
use crate::failure::Failure;
use crate::pair::{BenchSocket, Link, Pair};
use crate::rules::try_rule;
use crate::strain::strain_receiver;
use crate::traffic::Traffic;
use std::alloc::{AllocError, Global};
use std::mem::{size_of, swap};
use std::time::Duration;

/// Obeys a command, and prints what was done. If it fails, what was done up to there is printed.
pub fn obey(rt: &(impl Print + Alloc<A = Global>), command: Command) -> Result<(), Failure> {
    match command {
        Command::Handshakes(count) => shake_hands(rt, count),
        Command::Messages(plan) => carry(rt, &plan),
        Command::Strain(strain) => strain_receiver(rt.alloc(), &strain),
        Command::Burden(burden) => strain_sender(rt.alloc(), &burden),
        Command::Rules(case) => try_rule(rt, &case),
        Command::Hold(count, life) => hold(rt, count, life),
    }
}

// Carries 1 MiB each way.
fn carry_both_ways(alloc: Global, pair: &mut Pair) -> Result<(), Failure> {
    for _ in 0..2 {
        let mut traffic = Traffic::new(alloc, &Plan::new(1024, 1024))?;
        traffic.run(pair)?;
        swap(&mut pair.a.socket, &mut pair.b.socket);
    }
    Ok(())
}

// Two connected sockets with this life behind them.
fn connected(alloc: Global, life: Life) -> Result<Pair, Failure> {
    let mut pair = Pair::new(alloc, false)?;
    pair.connect()?;
    if life != Life::New {
        carry_both_ways(alloc, &mut pair)?;
    }
    if life == Life::Idle {
        pair.rest(Duration::from_secs(60))?;
    }
    Ok(pair)
}

// Connects two sockets and drops them, that many times, up to the first that fails.
fn shake_hands(rt: &(impl Print + Alloc<A = Global>), count: u32) -> Result<(), Failure> {
    let mut connections = 0u32;
    let mut outcome = Ok(());
    for _ in 0..count {
        outcome = connected(rt.alloc(), Life::New).map(drop);
        if outcome.is_err() {
            break;
        }
        connections = connections.saturating_add(1);
    }
    println!(rt; "connected {connections}")?;
    outcome
}

// From now on the link loses and delays packets as the plan says.
fn impair(alloc: Global, link: &mut Link, plan: &Plan) {
    link.reseed(u64::from(plan.seed));
    link.loss = plan.loss;
    link.delay = Duration::from_millis(u64::from(plan.delay) / 2);
    if plan.shows_chunks {
        link.chunks = Some(Chunks::new(alloc));
    }
}

// Connects, and lets the messages run.
fn run(alloc: Global, pair: &mut Pair, traffic: &mut Traffic, plan: &Plan) -> Result<(), Failure> {
    pair.connect()?;
    impair(alloc, &mut pair.link, plan);
    traffic.run(pair)
}

// Prints the time that has passed. If chunks were counted, prints how many were sent, and how many of them
// the peer had.
fn print_chunks(rt: &impl Print, link: &Link) -> Result<(), Failure> {
    if let Some(chunks) = &link.chunks {
        let (sent, needless) = (chunks.sent, chunks.needless);
        let milliseconds = link.now.as_nanos() / 1_000_000;
        println!(rt; "milliseconds {milliseconds}\nchunks {sent}\nneedless {needless}")?;
    }
    Ok(())
}

// Prints what has arrived. If asked, prints how many packets were sent, and how many of them were lost.
fn print_carried(
    rt: &impl Print,
    pair: &Pair,
    traffic: &Traffic,
    shows_counts: bool,
) -> Result<(), Failure> {
    let (messages, bytes) = (traffic.ledger.count, traffic.ledger.bytes);
    println!(rt; "messages {messages}\nbytes {bytes}")?;
    if shows_counts {
        let (out, back, lost) = (pair.a.packets, pair.b.packets, pair.link.lost);
        println!(rt; "packets-out {out}\npackets-back {back}\nlost {lost}")?;
    }
    Ok(())
}

fn carry(rt: &(impl Print + Alloc<A = Global>), plan: &Plan) -> Result<(), Failure> {
    let mut traffic = Traffic::new(rt.alloc(), plan)?;
    let mut pair = Pair::new(rt.alloc(), plan.without_checksum)?;
    let outcome = run(rt.alloc(), &mut pair, &mut traffic, plan);
    print_carried(rt, &pair, &traffic, plan.shows_counts)?;
    print_chunks(rt, &pair.link)?;
    outcome
}

// Makes pairs and keeps them. There is room for no other, so that each takes only what it needs.
fn hold(rt: &(impl Print + Alloc<A = Global>), count: u32, life: Life) -> Result<(), Failure> {
    let room = usize::try_from(count).unwrap_or(0);
    let mut pairs = Vec::<(BenchSocket, BenchSocket)>::with_capacity(rt.alloc(), room)?;
    for _ in 0..count {
        let pair = connected(rt.alloc(), life)?;
        pairs.push(pair.into_sockets())?;
    }
    let bytes = size_of::<BenchSocket>();
    println!(rt; "pairs {}\nsocket-bytes {bytes}", pairs.len())?;
    Ok(())
}
