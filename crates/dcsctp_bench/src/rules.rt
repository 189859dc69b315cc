//! What the option `follow_rfc` changes: each rule is tried with two sockets over a link that loses packets,
//! with a round trip of 50 ms.

use crate::failure::Failure;
use crate::keeping::Kept;
use crate::trial::{Goal, Load, Trial};
use dcsctp_socket::{Options, SocketTime};
use std::alloc::Global;
use std::time::Duration;

/// What is tried.
#[derive(Clone, Copy)]
pub enum Rule {
    /// The second user takes nothing for three minutes, while the first one sends four times the window. After
    /// one of them the first user resets another stream.
    Readers,

    /// 600 messages of 1,000 bytes are taken as they come.
    Windows,

    /// 200 messages of 1,000 bytes are queued, and then the association is shut down.
    Shutdown,

    /// 5 MiB in messages of 16 KiB.
    Bulk,

    /// The side that was connected to sends messages, and the other ends the association while a long one is
    /// under way. Then that side connects again, and is sent five more.
    Reconnects,

    /// Each second another stream is reset, right after three messages were sent on it.
    Closes,

    /// The same, where the peer gives its first answer again to a request that is repeated (RFC 6525, section
    /// 5.2.1).
    Keeps,

    /// For half a minute messages always wait on two streams of the same priority.
    Equals,
}

/// How a rule is tried.
#[derive(Clone, Copy)]
pub struct Case {
    pub rule: Rule,

    /// Do both sockets have the option?
    pub follows_rfc: bool,

    /// How many of a thousand packets are lost once the sockets are connected.
    pub loss: u32,

    /// Says which those are.
    pub seed: u32,

    /// The receive window in bytes, 1,500 at least.
    pub window: u32,
}

// What a trial has shown, beside what it has counted.
#[derive(Clone, Copy)]
struct Outcome {
    // Has everything happened that was waited for?
    is_complete: bool,

    // How long after a pause the first new message was taken; none if none was.
    resumed: Option<Duration>,
}

// The bytes of a short message.
const SHORT: usize = 1000;

// How many streams are reset one after another.
const CLOSES: u16 = 20;

// What hasn't happened after so many seconds never will.
const PATIENCE: u64 = 600;

// So many short messages.
fn short(count: u32) -> Load {
    Load {
        size: SHORT,
        count,
        streams: 1,
        queued: 1_000_000,
    }
}

// So many messages of 16 KiB, on these streams together.
fn long(count: u32, streams: u16) -> Load {
    Load {
        size: 16_384,
        count,
        streams,
        queued: 262_144,
    }
}

impl Case {
    // Does the peer give its first answer again to a request that is repeated?
    fn keeps_answers(&self) -> bool {
        match self.rule {
            Rule::Keeps => true,
            Rule::Readers | Rule::Windows | Rule::Shutdown | Rule::Bulk => false,
            Rule::Reconnects | Rule::Closes | Rule::Equals => false,
        }
    }

    // The options of both sockets.
    fn options(&self) -> Options {
        let mut options = Options::default();
        options.follow_rfc = self.follows_rfc;
        options.max_receiver_window_buffer_size = self.window as usize;
        // Answers are changed on their way, and the checksum isn't.
        options.disable_checksum_verification = self.keeps_answers();
        options
    }

    // The messages that the first user sends as fast as it may.
    fn load(&self) -> Load {
        match self.rule {
            Rule::Readers => short(self.window / 250),
            Rule::Windows => short(600),
            Rule::Shutdown => short(200),
            Rule::Bulk => long(320, 1),
            Rule::Reconnects | Rule::Closes | Rule::Keeps => short(0),
            Rule::Equals => long(u32::MAX, 2),
        }
    }

    // From now on the link loses and delays packets.
    fn impair(&self, trial: &mut Trial) {
        trial.pair.link.reseed(u64::from(self.seed));
        trial.pair.link.loss = self.loss;
        trial.pair.link.delay = Duration::from_millis(25);
        if self.keeps_answers() {
            trial.pair.link.kept = Some(Kept::new());
        }
    }

    // Connects the sockets, and lets their users act.
    fn run(&self, trial: &mut Trial) -> Result<Outcome, Failure> {
        trial.connect()?;
        self.impair(trial);
        let is_complete = match self.rule {
            Rule::Readers => return pause_and_read(trial),
            Rule::Windows | Rule::Bulk => take_all(trial)?,
            Rule::Shutdown => queue_and_shut_down(trial)?,
            Rule::Reconnects => lose_and_reconnect(trial)?,
            Rule::Closes | Rule::Keeps => close_streams(trial)?,
            Rule::Equals => trial.wait(Goal::Nothing, 30)?,
        };
        Ok(Outcome {
            is_complete,
            resumed: None,
        })
    }
}

// The second user takes everything as it comes.
fn take_all(trial: &mut Trial) -> Result<bool, Failure> {
    let all = trial.load.count;
    trial.wait(Goal::Taken(all), PATIENCE)
}

// The second user takes nothing for three minutes. After one of them the first user resets stream 1, on which
// it has sent a message.
fn pause(trial: &mut Trial) -> Result<(), Failure> {
    trial.is_reading = false;
    trial.send(1, 1, SHORT)?;
    trial.wait(Goal::Nothing, 60)?;
    trial.reset(1)?;
    trial.wait(Goal::Nothing, 120)?;
    trial.is_reading = true;
    trial.take()
}

// The second user pauses, and then takes everything.
fn pause_and_read(trial: &mut Trial) -> Result<Outcome, Failure> {
    pause(trial)?;
    let begin = trial.pair.link.now;
    let end = trial.after(PATIENCE);
    let next = trial.taken().saturating_add(1);
    let has_resumed = trial.wait_until(Goal::Taken(next), end)?;
    let waited = trial.pair.link.now - begin;
    let all = trial.load.count.saturating_add(1);
    Ok(Outcome {
        is_complete: trial.wait_until(Goal::Taken(all), end)?,
        resumed: if has_resumed { Some(waited) } else { None },
    })
}

// The association is shut down once all messages are queued.
fn queue_and_shut_down(trial: &mut Trial) -> Result<bool, Failure> {
    trial.give()?;
    trial.shut_down()?;
    trial.wait(Goal::Ended, PATIENCE)
}

// The first user sends three messages on a stream.
fn send_three(trial: &mut Trial, stream: u16) -> Result<(), Failure> {
    for _ in 0..3 {
        trial.send(stream, 1, SHORT)?;
    }
    Ok(())
}

// The association ends while a long message is under way. Then the user who has ended it connects again, and is
// sent five messages of protocol 0.
fn lose_and_reconnect(trial: &mut Trial) -> Result<bool, Failure> {
    send_three(trial, 0)?;
    trial.wait(Goal::Taken(3), PATIENCE)?;
    trial.send(0, 1, 200_000)?;
    trial.close()?;
    trial.wait(Goal::Ended, PATIENCE)?;
    trial.connect()?;
    for _ in 0..5 {
        trial.send(0, 0, SHORT)?;
    }
    trial.wait(Goal::Taken(9), PATIENCE)
}

// Each second another stream is reset, right after three messages were sent on it.
fn close_streams(trial: &mut Trial) -> Result<bool, Failure> {
    for stream in 0..CLOSES {
        send_three(trial, stream)?;
        trial.reset(stream)?;
        trial.wait(Goal::Nothing, 1)?;
    }
    trial.wait(Goal::Reset(usize::from(CLOSES)), 300)
}

// The milliseconds of a duration, rounded down.
fn milliseconds(duration: Duration) -> u128 {
    duration.as_nanos() / 1_000_000
}

// Prints what has happened: the messages of protocol 0, the others, own streams that were reset, ends, and times
// in milliseconds.
fn print(rt: &impl Print, trial: &Trial, outcome: &Outcome) -> Result<(), Failure> {
    let (a, b) = (&trial.pair.a, &trial.pair.b);
    let closes = a.told.closes.saturating_add(b.told.closes);
    let aborts = a.told.aborts.saturating_add(b.told.aborts);
    let last = milliseconds(trial.last - SocketTime::zero());
    let end = milliseconds(trial.pair.link.now - SocketTime::zero());
    println!(rt;
        "complete {}\nmessages {}",
        outcome.is_complete, trial.messages
    )?;
    println!(rt; "others {}\nresets {}", trial.others, a.told.resets)?;
    println!(rt; "closes {closes}\naborts {aborts}\nlast {last}\nend {end}")?;
    println!(rt; "packets-out {}\npackets-back {}", a.packets, b.packets)?;
    if let Some(resumed) = outcome.resumed {
        println!(rt; "resumed {}", milliseconds(resumed))?;
    }
    Ok(())
}

// Tries a rule with two closed sockets.
fn show(rt: &impl Print, trial: &mut Trial, case: &Case) -> Result<(), Failure> {
    let outcome = case.run(trial)?;
    print(rt, trial, &outcome)
}

/// Tries a rule, and prints what has happened.
pub fn try_rule(rt: &(impl Print + Alloc<A = Global>), case: &Case) -> Result<(), Failure> {
    let mut trial = Trial::new(rt.alloc(), &case.options(), case.load())?;
    show(rt, &mut trial, case)
}
