//! What a socket answers to its queries.

use dcsctp_socket::{
    DcSctpSocket, HandoverReadiness, Metrics, Pair, Phase, Socket, SocketState, SocketTime,
    StreamId, Word,
};
use dcsctp_testing::Counting;

/// All its answers, to some queries about one stream. Of what its last call drew, there are the numbers of
/// pairs and words, and the first of each.
#[derive(Debug, PartialEq, Drop)]
pub struct Answers {
    pub has_failed: bool,
    pub state: SocketState,
    pub association: Option<(Phase, Pair)>,
    pub verification_tag: u32,
    pub pairs: (usize, Option<Pair>),
    pub words: (usize, Option<Word>),
    pub next_word: u64,
    pub timeout: SocketTime,
    pub ready: usize,
    pub longest_message: usize,
    pub priority: u16,
    pub buffered: usize,
    pub threshold: usize,
    pub metrics: Option<Metrics>,
    pub readiness: HandoverReadiness,
}

/// Asks a socket all of it.
pub fn ask(socket: &Socket<Counting>, stream: StreamId) -> Answers {
    let pairs = socket.drawn_pairs();
    let words = socket.drawn_words();
    Answers {
        has_failed: socket.has_failed(),
        state: socket.state(),
        association: socket
            .association()
            .map(|association| (association.phase, association.my)),
        verification_tag: socket.verification_tag(),
        pairs: (pairs.len(), pairs.first().copied()),
        words: (words.len(), words.first().copied()),
        next_word: socket.generator().next,
        timeout: socket.poll_timeout(),
        ready: socket.messages_ready_count(),
        longest_message: socket.options().max_message_size,
        priority: socket.get_stream_priority(stream),
        buffered: socket.buffered_amount(stream),
        threshold: socket.buffered_amount_low_threshold(stream),
        metrics: socket.get_metrics(),
        readiness: socket.get_handover_readiness(),
    }
}
