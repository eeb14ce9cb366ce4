ghost use Rattle.std.specs.Prelude.{◌≡◌, take, drop};

use crate::link_fault::LinkFault;
use crate::network_answering::add_network_reply;
use crate::network_request::NetworkRequest;
use crate::writing::put_all;
use byteorder::{BigEndian, ByteOrder};
use file_devices::Sink;
use iso_encoder::encode_reply;
use iso8583::Reply;
use issuer_rows::ReplyBody;
use std::alloc::{AllocError, Global};

/// Memory for the replies that are written on a link.
#[derive(Drop)]
pub struct ReplyWriter {
    // The frames that are about to be written.
    out: Vec<u8>,
    // The bytes of one reply.
    text: Vec<u8>,
}

impl ReplyWriter {
    ghost use Rattle.std.specs.Prelude.{◌≡◌, ◌⊎◌, ◌++◌, IfErr, OnOk, OnErr};
    ghost use Rattle.iso_laws.specs.Replies.{reply_spelling};
    ghost use Rattle.file_laws.specs.Files.{framed};
    ghost use Rattle.link_frames.specs.LinkFault.{Writes};
    ghost use Rattle.link_frames.specs.Incoming.{merged};
    ghost use Rattle.link_frames.specs.Replies.{reply_frame, reply_frames, AppendsPart};

    /// It takes memory once there are replies.
    pub fn new(alloc: Global) -> ReplyWriter {
        ReplyWriter {
            out: Vec::new(alloc),
            text: Vec::new(alloc),
        }
    }

    // Makes the frame of one reply.
    fn add(&mut self, reply: &Reply) -> Result<(), AllocError>
        ensures { OnOk result (self.new.out.items ≡ self.old.out.items ++ framed (reply_spelling reply.now)) }
    {
        self.text.clear();
        if encode_reply(reply, &mut self.text).is_err() {
            return Err(AllocError);
        }
        let mut length = [0u8; 2];
        BigEndian::write_u16(&mut length, self.text.len() as u16);
        self.out.extend_from_slice(&length)?;
        self.out.extend_from_slice(&self.text)
    }

    // Makes the frame of the reply to one body.
    fn add_body(&mut self, reply: &ReplyBody) -> Result<(), AllocError>
        ensures { OnOk result (self.new.out.items ≡ self.old.out.items ++ reply_frame reply.now) }
    {
        match reply {
            ReplyBody::Reply(reply) => self.add(reply),
            ReplyBody::Fault(_) => Ok(()),
        }
    }

    // Makes the frames of all of them, behind those that are there; a body that is no message gets none.
    fn add_all(&mut self, replies: &[ReplyBody]) -> Result<(), AllocError>
        ensures { OnOk result (self.new.out.items ≡ self.old.out.items ++ reply_frames replies.now) }
    {
        for reply in replies {
            self.add_body(reply)?;
        }
        Ok(())
    }

    // Makes the frames of the replies, with that of the reply to each request at its place between them.
    fn make(&mut self, replies: &[ReplyBody], requests: &[NetworkRequest]) -> Result<(), AllocError>
        ensures { OnOk result (self.new.out.items ≡ merged requests.now replies.now) }
    {
        self.out.clear();
        let mut rest = replies;
        for request in requests {
            let (before, behind) = split_front(rest, request.bodies_before);
            self.add_all(before)?;
            add_network_reply(&request.message, &mut self.out)?;
            rest = behind;
        }
        self.add_all(rest)
    }

    /// Writes the replies to bodies, each in its frame, and the reply to each network management request at its place between them, in one
    /// call where the sink takes them; a body that is no message gets none. After a fault a beginning of them was written. It is
    /// `Unwritable`, exactly where a call of the sink failed, or `OutOfMemory`, before the first byte.
    pub fn write<W: Sink>(
        &mut self,
        replies: &[ReplyBody],
        requests: &[NetworkRequest],
        sink: &mut W,
    ) -> Result<(), LinkFault>
        ensures device { Writes W.is_known W.has_failed W.may_fail sink.old sink.new result }
        ensures ok { OnOk result (W.is_known sink.old → W.written sink.new ≡ W.written sink.old ++ merged requests.now replies.now) }
        ensures err { OnErr result (W.is_known sink.old
            → AppendsPart (W.written sink.old) (W.written sink.new) (merged requests.now replies.now)) }
        ensures memory { IfErr result (λ e. e ≡ LinkFault.OutOfMemory → sink.new ≡ sink.old) }
        ensures kinds { IfErr result (λ e. (e ≡ LinkFault.Unwritable) ⊎ (e ≡ LinkFault.OutOfMemory)) }
    {
        self.make(replies, requests)?;
        put_all(sink, &self.out)
    }
}

// So many replies, or all where there are fewer, and those behind them.
fn split_front(replies: &[ReplyBody], count: u32) -> (&[ReplyBody], &[ReplyBody])
    ensures front { result.0.now ≡ take count replies.now }
    ensures behind { result.1.now ≡ drop count replies.now }
{
    replies.split_at(replies.len().min(count as usize))
}
