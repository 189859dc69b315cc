//! What the arguments of the program say.

use crate::burden::{Burden, Kind};
use crate::rules::{Case, Rule};
use crate::strain::{Following, HOLES, Holding, Strain};

/// What the program is to do.
#[derive(Clone, Copy)]
pub enum Command {
    /// Connects that many pairs of sockets, one after another.
    Handshakes(u32),

    /// Carries messages.
    Messages(Plan),

    /// Strains a receiver.
    Strain(Strain),

    /// Strains a sender.
    Burden(Burden),

    /// Tries a rule.
    Rules(Case),

    /// Keeps that many pairs of connected sockets with this life behind them.
    Hold(u32, Life),
}

/// What two sockets that are kept did before.
#[derive(Clone, Copy, PartialEq, Eq)]
pub enum Life {
    /// They connected.
    New,

    /// They sent 1 MiB each way.
    Used,

    /// The same, and nothing for a minute.
    Idle,
}

/// Which messages are carried, and how.
#[derive(Clone, Copy)]
pub struct Plan {
    /// How many messages there are beside those that are queued before.
    pub count: u32,

    /// How many messages are sent before any packet is handed over.
    pub queued: u32,

    /// The bytes of each message, 1 at least.
    pub size: usize,

    /// The peer may be given them out of order.
    pub is_unordered: bool,

    /// How many streams take turns, 1 at least. The first has the number 0.
    pub streams: u16,

    /// How many of a thousand packets are lost.
    pub loss: u32,

    /// Says which those are.
    pub seed: u32,

    /// How many milliseconds a packet and its answer take together.
    pub delay: u32,

    /// Packets carry no checksum (RFC 9653).
    pub without_checksum: bool,

    /// The counts of packets are printed, too.
    pub shows_counts: bool,

    /// The time that passed and the chunks of data are printed, too.
    pub shows_chunks: bool,
}

// The most messages or pairs that a run may have.
const MOST: u32 = 100_000_000;

// The longest message of the default options, in bytes.
const LONGEST: u32 = 262_144;

// The longest delay, in milliseconds.
const LONGEST_DELAY: u32 = 60_000;

impl Plan {
    /// That many messages of this many bytes, all in order on one stream, over a link that loses nothing.
    pub fn new(count: u32, size: usize) -> Plan {
        Plan {
            count,
            queued: 0,
            size,
            is_unordered: false,
            streams: 1,
            loss: 0,
            seed: 7,
            delay: 0,
            without_checksum: false,
            shows_counts: false,
            shows_chunks: false,
        }
    }

    // Adds what a word says; none if it says nothing.
    fn add(&mut self, word: &str) -> Option<()> {
        match word.split_once('=') {
            None => match word {
                "unordered" => self.is_unordered = true,
                "zero-checksum" => self.without_checksum = true,
                "counts" => self.shows_counts = true,
                "chunks" => self.shows_chunks = true,
                _ => return None,
            },
            Some(("streams", value)) => self.streams = u16::try_from(number(
                value, 1, 65535,
            )?).ok()?,
            Some(("loss", value)) => self.loss = number(value, 0, 1000)?,
            Some(("seed", value)) => self.seed = number(value, 0, MOST)?,
            Some(("delay", value)) => self.delay = number(value, 0, LONGEST_DELAY)?,
            Some(("queued", value)) => self.queued = number(value, 0, MOST)?,
            Some(_) => return None,
        }
        Some(())
    }
}

// The number that a text is, between two others.
fn number(text: &str, least: u32, most: u32) -> Option<u32> {
    let number = text.parse::<u32>().ok()?;
    if number < least || most < number {
        return None;
    }
    Some(number)
}

// The plan of that many messages that these words say, of which the first is their size.
fn parse_plan(count: u32, words: &[String]) -> Option<Plan> {
    let (first, rest) = words.split_first()?;
    let size = number(first.as_str(), 1, LONGEST)?;
    let mut plan = Plan::new(count, usize::try_from(size).ok()?);
    for word in rest {
        plan.add(word.as_str())?;
    }
    Some(plan)
}

// What a word says about what a receiver must hold, if more of it follows; `None` if it says nothing.
fn parse_holding(word: &str) -> Option<Holding> {
    match word {
        "fragments" => Some(Holding::Fragments),
        "interleaved" => Some(Holding::Interleaved),
        "gaps" => Some(Holding::Gaps),
        "links" => Some(Holding::Links),
        "waiting" => Some(Holding::Waiting),
        "streams" => Some(Holding::Streams),
        "reset" => Some(Holding::Reset),
        "skips-deferred" => Some(Holding::Deferred),
        "skips-deferred-interleaved" => Some(Holding::DeferredApart),
        _ => None,
    }
}

// What a word says about what a receiver must hold, and about what comes then; `None` if it says nothing.
fn parse_kind(word: &str) -> Option<(Holding, Following)> {
    let same = Following::Skips { is_rising: false };
    match word {
        "skips-repeated" => Some((Holding::Begun, same)),
        "skips-rising" => Some((Holding::Begun, Following::Skips { is_rising: true })),
        "skips-waiting" => Some((Holding::Waiting, same)),
        "skips-interleaved" => Some((Holding::Interleaved, same)),
        "resets" => Some((Holding::Fragments, Following::Resets)),
        _ => Some((parse_holding(word)?, Following::More)),
    }
}

// What a word says about how a sender is strained; `None` if it says nothing.
fn parse_burden(word: &str) -> Option<Kind> {
    match word {
        "turns" => Some(Kind::Turns),
        "closes" => Some(Kind::Closes),
        "priorities" => Some(Kind::Priorities),
        "sends" => Some(Kind::Sends),
        "reset-calls" => Some(Kind::Resets),
        "sacks" => Some(Kind::Sacks),
        "misses" => Some(Kind::Misses),
        "abandoned" => Some(Kind::Abandoned),
        _ => None,
    }
}

// How a sender or a receiver is strained, by these words: by what, how much there is, and how many calls or
// packets come then.
fn parse_strain(words: &[String]) -> Option<Command> {
    if words.len() != 3 {
        return None;
    }
    let word = words.first()?.as_str();
    let held = number(words.get(1)?.as_str(), 1, MOST)?;
    let more = number(words.get(2)?.as_str(), 0, HOLES)?;
    if let Some(kind) = parse_burden(word) {
        return Some(Command::Burden(Burden { kind, held, more }));
    }
    let (holding, following) = parse_kind(word)?;
    Some(Command::Strain(Strain {
        holding,
        following,
        held,
        more,
    }))
}

// What a word says about which rule is tried; `None` if it says nothing.
fn parse_rule(word: &str) -> Option<Rule> {
    match word {
        "readers" => Some(Rule::Readers),
        "windows" => Some(Rule::Windows),
        "shutdown" => Some(Rule::Shutdown),
        "bulk" => Some(Rule::Bulk),
        "reconnects" => Some(Rule::Reconnects),
        "closes" => Some(Rule::Closes),
        "keeps" => Some(Rule::Keeps),
        "equals" => Some(Rule::Equals),
        _ => None,
    }
}

// What sockets did before, by this word; `None` if it says nothing.
fn parse_life(word: &str) -> Option<Life> {
    match word {
        "used" => Some(Life::Used),
        "idle" => Some(Life::Idle),
        _ => None,
    }
}

// Is an option on, by this word? `None` if it says nothing.
fn parse_switch(word: &str) -> Option<bool> {
    match word {
        "on" => Some(true),
        "off" => Some(false),
        _ => None,
    }
}

// How a rule is tried, by these words.
fn parse_case(words: &[String]) -> Option<Case> {
    let mut case = Case {
        rule: parse_rule(words.first()?.as_str())?,
        follows_rfc: parse_switch(words.get(1)?.as_str())?,
        loss: 0,
        seed: 7,
        window: 5_242_880,
    };
    for word in words.get(2..)? {
        match word.as_str().split_once('=')? {
            ("loss", value) => case.loss = number(value, 0, 1000)?,
            ("seed", value) => case.seed = number(value, 0, MOST)?,
            ("window", value) => case.window = number(value, 1500, MOST)?,
            _ => return None,
        }
    }
    Some(case)
}

/// The command that these words say, without the name of the program; `None` if they say no command.
pub fn parse_command(words: &[String]) -> Option<Command> {
    let (name, words) = words.split_first()?;
    match name.as_str() {
        "strain" => return parse_strain(words),
        "rules" => return Some(Command::Rules(parse_case(words)?)),
        _ => {}
    }
    let count = number(words.first()?.as_str(), 1, MOST)?;
    let rest = words.get(1..)?;
    match name.as_str() {
        "handshakes" if rest.is_empty() => Some(Command::Handshakes(count)),
        "messages" => Some(Command::Messages(parse_plan(count, rest)?)),
        "hold" if rest.is_empty() => Some(Command::Hold(count, Life::New)),
        "hold" if rest.len() == 1 => Some(Command::Hold(
            count,
            parse_life(rest.first()?.as_str())?,
        )),
        _ => None,
    }
}
