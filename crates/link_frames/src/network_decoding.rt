ghost use Rattle.std.specs.Prelude.{◌≡◌, ◌++◌, Some, IfSome};
ghost use Rattle.iso8583.specs.declared.transmission.Transmission.{Transmission};
ghost use Rattle.link_frames.specs.Network.{IsNetwork, IsTransmission, SpellsNetwork, tail_text};
ghost use Rattle.link_frames.specs.declared.network_message.NetworkMessage.{NetworkMessage};

use crate::network_function::NetworkFunction;
use crate::network_message::NetworkMessage;
use iso8583::{LocalStamp, Stan, Transmission};

// The type, and the bitmap of elements 11, 12 and 24; and of these and 7.
const PLAIN: &[u8] = b"1804\x00\x30\x01\x00\x00\x00\x00\x00";

const DATED: &[u8] = b"1804\x02\x30\x01\x00\x00\x00\x00\x00";

// The message with this element 7 and these elements 11, 12 and 24.
fn tail_of(transmission: Option<Transmission>, text: &[u8]) -> Option<NetworkMessage>
    requires { IsTransmission transmission }
    ensures found { IfSome result (λ m. IsNetwork m × (m.transmission ≡ transmission) × (text.now ≡ tail_text m)) }
    ensures only { (m : NetworkMessage) → IsNetwork m → m.transmission ≡ transmission → text.now ≡ tail_text m → result ≡ Some m }
{
    if text.len() != 21 {
        return None;
    }
    let (stan, rest) = text.split_at(6);
    let (stamp, function) = rest.split_at(12);
    Some(NetworkMessage {
        transmission,
        stan: Stan::new(stan)?,
        stamp: LocalStamp::new(stamp)?,
        function: NetworkFunction::new(function)?,
    })
}

// The message behind the type and the bitmap, with element 7.
fn dated_of(text: &[u8]) -> Option<NetworkMessage>
    ensures found { IfSome result (λ m. IsNetwork m × ((t : Transmission) × (m.transmission ≡ Some t) × (text.now ≡ t.0 ++ tail_text m))) }
    ensures only { (m : NetworkMessage) (t : Transmission) → IsNetwork m → m.transmission ≡ Some t → text.now ≡ t.0 ++ tail_text m → result ≡ Some m }
{
    if text.len() < 10 {
        return None;
    }
    let (transmission, tail) = text.split_at(10);
    tail_of(Some(Transmission::new(transmission)?), tail)
}

/// The network message that the bytes spell, all of the bytes (ISO 8583:1993: 1804 with elements 11, 12 and 24, function 801, 802 or 831,
/// and 7 if it is there). `None` where they spell none.
pub fn decode_network(body: &[u8]) -> Option<NetworkMessage>
    // What is read is spelled so.
    ensures found { IfSome result (SpellsNetwork body.now) }
    // What is spelled so is read.
    ensures only { (m : NetworkMessage) → SpellsNetwork body.now m → result ≡ Some m }
{
    if body.len() < 12 {
        return None;
    }
    let (head, rest) = body.split_at(12);
    if head == PLAIN {
        return tail_of(None, rest);
    }
    if head == DATED {
        return dated_of(rest);
    }
    None
}
