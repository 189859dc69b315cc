//! Tests of `dcsctp_wire_checksum`, `dcsctp_wire` and `dcsctp_wire_build` by their public calls. Packets that
//! were put together by hand are read, and chunks are written. Each kind of chunk goes both ways; texts of
//! causes, checksums and numbers are compared.
mod both_ways;
mod causes;
mod checks;
mod checksums;
mod entries;
mod gap_ack_blocks;
mod kinds;
mod numbers;
mod reading;
