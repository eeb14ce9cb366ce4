//! Network messages and their replies, byte for byte, by hand.

use link_frames::{NetworkFunction, add_network_reply, decode_network};
use std::alloc::Global;

// An echo test, 1804 with elements 11, 12 and 24; and its reply in its frame, 1814 with element 39, too.
const ECHO: &[u8] = b"1804\x00\x30\x01\x00\x00\x00\x00\x00000007260315080500831";

const ECHO_REPLY: &[u8] = b"\x00\x241814\x00\x30\x01\x00\x02\x00\x00\x00000007260315080500831800";

// A sign-on with element 7, and its reply.
const SIGN_ON: &[u8] = b"1804\x02\x30\x01\x00\x00\x00\x00\x000315080501000008260315080501801";

const SIGN_ON_REPLY: &[u8] =
    b"\x00\x2e1814\x02\x30\x01\x00\x02\x00\x00\x000315080501000008260315080501801800";

// Bodies that are no network message: function 803; month 13; a byte short, and one too many; element 7 in the bitmap alone; an 1814; and
// a request.
const OTHERS: &[&[u8]] = &[
    b"1804\x00\x30\x01\x00\x00\x00\x00\x00000007260315080500803",
    b"1804\x00\x30\x01\x00\x00\x00\x00\x00000007261315080500831",
    b"1804\x00\x30\x01\x00\x00\x00\x00\x0000000726031508050083",
    b"1804\x00\x30\x01\x00\x00\x00\x00\x000000072603150805008310",
    b"1804\x02\x30\x01\x00\x00\x00\x00\x00000007260315080500831",
    b"1814\x00\x30\x01\x00\x00\x00\x00\x00000007260315080500831",
    b"1100",
];

// Whether the body is answered so.
fn is_answered(alloc: Global, body: &[u8], function: NetworkFunction, reply: &[u8]) -> bool {
    let Some(message) = decode_network(body) else {
        return false;
    };
    let mut out = Vec::new(alloc);
    message.function == function
        && add_network_reply(&message, &mut out).is_ok()
        && out.as_slice() == reply
}

#[test]
fn network_messages_are_answered_800(rt: HostRuntime) {
    assert!(rt; is_answered(rt.alloc(), ECHO, NetworkFunction::Echo, ECHO_REPLY));
    assert!(rt; is_answered(rt.alloc(), SIGN_ON, NetworkFunction::SignOn, SIGN_ON_REPLY));
}

#[test]
fn other_bodies_are_no_network_messages(rt: HostRuntime) {
    for body in OTHERS {
        assert!(rt; decode_network(body).is_none());
    }
}
