ghost use Rattle.std.specs.Prelude.{◌≡◌, ◌+◌, ◌++◌, length, OnOk};
ghost use Rattle.byteorder.specs.Endian.{big_bytes};
ghost use Rattle.file_laws.specs.Files.{framed};
ghost use Rattle.link_frames.specs.Network.{network_reply_head, transmission_text, tail_text, network_reply_spelling};

use crate::network_message::NetworkMessage;
use iso8583::Transmission;
use std::alloc::AllocError;

// Appends the length of the reply, its type and bitmap, and element 7 if it is there.
fn add_head(transmission: &Option<Transmission>, out: &mut Vec<u8>) -> Result<(), AllocError>
    ensures { OnOk result (out.new.items ≡ out.old.items ++ (big_bytes 2 (36 + length (transmission_text transmission.now))
        ++ network_reply_head transmission.now ++ transmission_text transmission.now)) }
{
    match transmission {
        None => out.extend_from_slice(b"\x00\x241814\x00\x30\x01\x00\x02\x00\x00\x00"),
        Some(transmission) => {
            out.extend_from_slice(b"\x00\x2e1814\x02\x30\x01\x00\x02\x00\x00\x00")?;
            out.extend_from_slice(transmission.0.as_slice())
        }
    }
}

// Appends elements 11, 12 and 24.
fn add_tail(message: &NetworkMessage, out: &mut Vec<u8>) -> Result<(), AllocError>
    ensures text { OnOk result (out.new.items ≡ out.old.items ++ tail_text message.now) }
    ensures size { OnOk result (length (tail_text message.now) ≡ 21) }
{
    let stan = message.stan.0.as_slice();
    let stamp = message.stamp.as_slice();
    let function = message.function.as_slice();
    out.extend_from_slice(stan)?;
    out.extend_from_slice(stamp)?;
    out.extend_from_slice(function)
}

/// Appends the reply to a network message in its frame: 1814 with the message's elements, and action code 800 (ISO 8583:1993: accepted).
/// Memory can run out.
pub fn add_network_reply(message: &NetworkMessage, out: &mut Vec<u8>) -> Result<(), AllocError>
    ensures { OnOk result (out.new.items ≡ out.old.items ++ framed (network_reply_spelling message.now)) }
{
    add_head(&message.transmission, out)?;
    add_tail(message, out)?;
    out.extend_from_slice(b"800")?;
    Ok(())
}
