//! How a run is.

/// How long a message is tried.
#[derive(Clone, Copy, Debug, PartialEq, Eq)]
pub enum Effort {
    /// Until it is acknowledged.
    Reliable,

    /// It is sent once.
    SentOnce,

    /// It is sent again once.
    SentTwice,

    /// For 100 milliseconds.
    Lifetime,
}

/// Which streams an end resets, and when.
#[derive(Clone, Copy, Debug, PartialEq, Eq)]
pub enum Resetting {
    /// None.
    Never,

    /// Of the four that carry messages some, before each eighth message, once all before it have left.
    BetweenMessages,

    /// Of those four one, before each eighth message, once all of its own have left; messages of others may wait.
    AmongMessages,

    /// So many others, by one call.
    AtOnce(u16),

    /// Others, one by one: that many times, each time once the reset before it was performed.
    InTurn(usize),
}

/// Which ends shut the association down, once all messages have left both queues.
#[derive(Clone, Copy, Debug, PartialEq, Eq)]
pub enum Closing {
    /// None: it stays open.
    Never,

    /// A.
    ByOne,

    /// A and B, at the same moment.
    ByBoth,
}

/// When ends are handed over to other sockets, ten times each, once the association is open.
#[derive(Clone, Copy, Debug, PartialEq, Eq)]
pub enum Handing {
    /// Never.
    Never,

    /// While nothing that they have sent is unfinished.
    AtRest,

    /// While messages may wait or be in flight, which go along.
    WithData,
}

/// How a run is, at both ends.
#[derive(Clone, Copy)]
pub struct Run {
    /// What a failure names it by.
    pub name: &'static str,

    /// What tags, sizes and faults are drawn from.
    pub seed: u64,

    /// How many of a hundred packets are lost; as many are doubled, and as many are late.
    pub faults: u32,

    /// How long messages are tried, by their numbers modulo 4.
    pub efforts: [Effort; 4],

    /// Is every third message unordered?
    pub has_unordered: bool,

    /// Are messages sent as I-DATA (RFC 8260)?
    pub interleaving: bool,

    /// Do packets go without a checksum (RFC 9653)?
    pub zero_checksum: bool,

    /// The greatest size of a packet, in bytes.
    pub mtu: usize,

    /// The greatest size of a message, in bytes.
    pub longest: u32,

    /// Which streams are reset (RFC 6525)?
    pub resetting: Resetting,

    /// When are ends handed over?
    pub handing: Handing,

    /// Which ends shut the association down (RFC 9260, section 9.2)?
    pub closing: Closing,

    /// Which of the packets that A and B send from that shutdown on are lost, by their numbers from 1.
    pub lost: [[usize; 2]; 2],
}

/// Ordered and reliable messages, no faults, no resets, no handovers, and no shutdown.
pub const PLAIN: Run = Run {
    name: "plain",
    seed: 0,
    faults: 0,
    efforts: [Effort::Reliable; 4],
    has_unordered: false,
    interleaving: false,
    zero_checksum: false,
    mtu: 1191,
    longest: 5000,
    resetting: Resetting::Never,
    handing: Handing::Never,
    closing: Closing::Never,
    lost: [[0; 2]; 2],
};

impl Run {
    /// May messages be abandoned?
    pub fn is_limited(&self) -> bool {
        for effort in &self.efforts {
            if *effort != Effort::Reliable {
                return true;
            }
        }
        false
    }
}
