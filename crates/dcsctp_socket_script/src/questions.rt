//! What one socket is asked.

use crate::notes::Notes;
use dcsctp_socket::{DcSctpSocket, Socket};
use dcsctp_testing::TwoWords;

/// A question must be answered so.
pub fn is_asked(notes: &mut Notes, socket: &mut Socket<TwoWords>, question: &str, expected: &str) {
    match question {
        "message" => notes.shows(&next_message(socket), expected),
        "state" => notes.shows(&socket.state(), expected),
        "tag" => notes.shows(&socket.verification_tag(), expected),
        "association" => notes.shows(&pairs_of(socket), expected),
        "pairs" => notes.shows(&socket.drawn_pairs(), expected),
        "failed" => notes.shows(&socket.has_failed(), expected),
        "longest" => notes.shows(&socket.options().max_message_size, expected),
        "mtu" => notes.shows(&socket.options().mtu, expected),
        _ => is_asked_of_counts(notes, socket, question, expected),
    }
}

fn is_asked_of_counts(
    notes: &mut Notes,
    socket: &Socket<TwoWords>,
    question: &str,
    expected: &str,
) {
    match question {
        "metrics" => notes.shows(&socket.get_metrics(), expected),
        "packets" => notes.shows(&packets_of(socket), expected),
        "again" => notes.shows(&again_of(socket), expected),
        "unacknowledged" => notes.shows(&unacknowledged_of(socket), expected),
        "uses" => notes.shows(&uses_of(socket), expected),
        "ready" => notes.shows(&socket.get_handover_readiness().is_ready(), expected),
        "readiness" => notes.shows(&socket.get_handover_readiness(), expected),
        _ => notes.fails("no such line"),
    }
}

/// A question about a stream must be answered so.
pub fn is_asked_of_stream(
    notes: &mut Notes,
    socket: &Socket<TwoWords>,
    question: &str,
    id: &str,
    expected: &str,
) {
    let id = notes.stream(id);
    match question {
        "amount" => notes.shows(&socket.buffered_amount(id), expected),
        "priority" => notes.shows(&socket.get_stream_priority(id), expected),
        "threshold" => notes.shows(&socket.buffered_amount_low_threshold(id), expected),
        _ => notes.fails("no such line"),
    }
}

// The next message: its stream, its protocol, and its length.
fn next_message(socket: &mut Socket<TwoWords>) -> Option<(u16, u32, usize)> {
    match socket.get_next_message() {
        Some(message) => Some((message.stream_id.0, message.ppid.0, message.payload.len())),
        None => None,
    }
}

// Its own pair and the peer's, which is zeros if no peer is known.
fn pairs_of(socket: &Socket<TwoWords>) -> Option<[u32; 4]> {
    let association = socket.association()?;
    let my = association.my;
    match association.held {
        Some(held) => Some([my.tag, my.first_tsn, held.peer.tag, held.peer.first_tsn]),
        None => Some([my.tag, my.first_tsn, 0, 0]),
    }
}

// How many packets were sent, and how many were handed in.
fn packets_of(socket: &Socket<TwoWords>) -> Option<(usize, usize)> {
    let metrics = socket.get_metrics()?;
    Some((metrics.tx_packets_count, metrics.rx_packets_count))
}

// How many packets had chunks that were sent again, and the bytes of these.
fn again_of(socket: &Socket<TwoWords>) -> Option<(usize, u64)> {
    let metrics = socket.get_metrics()?;
    Some((metrics.rtx_packets_count, metrics.rtx_bytes_count))
}

fn unacknowledged_of(socket: &Socket<TwoWords>) -> Option<usize> {
    let metrics = socket.get_metrics()?;
    Some(metrics.unack_data_count)
}

// Interleaving, and no checksum
fn uses_of(socket: &Socket<TwoWords>) -> Option<(bool, bool)> {
    let metrics = socket.get_metrics()?;
    Some((
        metrics.uses_message_interleaving,
        metrics.uses_zero_checksum,
    ))
}
