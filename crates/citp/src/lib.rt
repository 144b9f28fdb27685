// The walk over a stream of packets: one step, its report, and the body that a report speaks of.
#![tactic(auto)]

ghost use Rattle.std.specs.Prelude.{◌≡◌, ◌+◌, ◌^◌, ◌<◌, ◌≤◌, length, take, IfOk, IfSome};
ghost use Rattle.protocol.specs.Kind.{layer as layer_of_kind};
ghost use Rattle.protocol.specs.Layer.{cookie, header_length, hinted, layer_header};
ghost use Rattle.format.specs.View.{view};
ghost use Rattle.std.proofs.Math.Option.{some};
ghost use Rattle.protocol.specs.Step.{read_body, read_layer, content_at, start_number, step_at};
ghost use Rattle.header.specs.Says.{header_value};
ghost use Rattle.layers.specs.Says.{layer_is};
ghost use Rattle.refusal.specs.Says.{number_says};
ghost use Rattle.wire.specs.Says.{says, message_says};
ghost use Rattle.citp.specs.Says.{layer_header_value, content_in, message_kind, message_view, message_hint};
ghost use Rattle.citp.specs.Says.{report_says, packet_says, step_says, body_place, body_of_report};

use caex::Caex;
use finf::Finf;
use fptc::Fptc;
use fsel::Fsel;
use header::Header;
use layers::Layer;
use pinf::Pinf;
use put::LIMIT;
use refusal::Refusal;
use sdmx::Sdmx;
use wire::Block;

// ---- reports

// A message of one kind of a layer; in FPTC with its content hint.
#[derive(Clone, Copy)]
pub enum Message {
    Pinf(pinf::Message),
    Sdmx(sdmx::Message),
    Fptc(fptc::Message, u32),
    Fsel(fsel::Message),
    Finf(finf::Message),
    Caex(caex::Message),
}

// What a packet holds.
#[derive(Clone, Copy)]
pub enum Report {
    // the offset of its body in the stream, and the count of added bytes
    Message(Message, usize, usize),
    // the cookie
    UnknownLayer(u32),
    // the layer's cookie and the content type
    UnknownKind(u32, u32),
    // its part and the count of parts
    Fragment(u16, u16),
    // of its layer header or its body, a number: 6 to 10, or 19
    Refused(u8),
}

// A packet's offset in the stream, its size, its request_index and what it holds.
#[derive(Clone, Copy)]
pub struct PacketReport {
    pub offset: usize,
    pub size: u32,
    pub request_index: u16,
    pub report: Report,
}

// Where the next packet starts in the stream.
#[derive(Clone, Copy)]
pub struct Cursor {
    pub at: usize,
}

// ---- the layer header

#[derive(Clone, Copy)]
struct LayerHeader {
    content_type: u32,
    // 0 in a layer that has none
    content_hint: u32,
}

fn layer_header(layer: Layer, packet: &[u8]) -> Result<(LayerHeader, wire::Cursor), Refusal>
    ensures { says layer_header_value result ≡ view (layer_header (layer_is layer)) packet.now 20 }
{
    let c = wire::Cursor { at: Header::LENGTH };
    let (content_type, c) = c.u32(packet)?;
    if !layer.has_hint() {
        return Ok((
            LayerHeader {
                content_type,
                content_hint: 0,
            },
            c,
        ));
    }
    let (content_hint, c) = c.u32(packet)?;
    Ok((
        LayerHeader {
            content_type,
            content_hint,
        },
        c,
    ))
}

// ---- one packet, cut out of the stream, which starts at an offset of it

impl Message {
    // The body of a packet of a layer; none where its content type is of no kind that is read.
    fn read_from_bytes(
        layer: Layer,
        h: LayerHeader,
        body: &[u8],
    ) -> Result<Option<(Message, wire::Cursor)>, Refusal>
        ensures fields { message_says message_kind message_view result ≡ read_body (layer_is layer) h.content_type body.now }
        ensures hint { IfOk result (λ o. IfSome o (λ x. message_hint x.0 ≡ hinted (layer_is layer) h.content_hint)) }
    {
        let content_type = h.content_type;
        Ok(match layer {
            Layer::Pinf => pinf::Message::read_from_bytes(content_type, body)?.map(|(m, c)| (
                Message::Pinf(m),
                c,
            )),
            Layer::Sdmx => sdmx::Message::read_from_bytes(content_type, body)?.map(|(m, c)| (
                Message::Sdmx(m),
                c,
            )),
            Layer::Fptc => fptc::Message::read_from_bytes(content_type, body)?.map(|(m, c)| (
                Message::Fptc(m, h.content_hint),
                c,
            )),
            Layer::Fsel => fsel::Message::read_from_bytes(content_type, body)?.map(|(m, c)| (
                Message::Fsel(m),
                c,
            )),
            Layer::Finf => finf::Message::read_from_bytes(content_type, body)?.map(|(m, c)| (
                Message::Finf(m),
                c,
            )),
            Layer::Caex => caex::Message::read_from_bytes(content_type, body)?.map(|(m, c)| (
                Message::Caex(m),
                c,
            )),
        })
    }
}

fn body_report(layer: Layer, h: LayerHeader, at: usize, body: &[u8]) -> Report
    requires { at + header_length (layer_is layer) < 2 ^ 64 }
    ensures { report_says result ≡ content_in (layer_is layer) h at body.now }
{
    match Message::read_from_bytes(layer, h, body) {
        Ok(Some((m, c))) => Report::Message(
            m,
            at + layer.header_length(),
            body.len().saturating_sub(c.at),
        ),
        Ok(None) => Report::UnknownKind(layer.cookie(), h.content_type),
        Err(r) => Report::Refused(r.number()),
    }
}

fn layer_report(layer: Layer, at: usize, packet: &[u8]) -> Report
    requires { at + length packet.now < 2 ^ 64 }
    ensures { report_says result ≡ read_layer at (cookie (layer_is layer)) packet.now (some (layer_is layer)) }
{
    let length = layer.header_length();
    if packet.len() < length {
        return Report::Refused(Refusal::ShortLayerHeader.number());
    }
    let Ok((h, _)) = layer_header(layer, packet) else {
        return Report::Refused(Refusal::ShortLayerHeader.number());
    };
    body_report(layer, h, at, &packet[length..])
}

fn packet_report(h: Header, at: usize, packet: &[u8]) -> Report
    requires { at + length packet.now < 2 ^ 64 }
    ensures { report_says result ≡ content_at at (header_value h) packet.now }
{
    if 1 < h.message_part_count || 0 < h.message_part {
        return Report::Fragment(h.message_part, h.message_part_count);
    }
    let Some(layer) = Layer::of(h.content_type) else {
        return Report::UnknownLayer(h.content_type);
    };
    layer_report(layer, at, packet)
}

// The packet with which the rest of a stream starts.
fn first_packet(rest: &[u8], size: usize) -> &[u8]
    requires { size ≤ length rest.now }
    ensures { result.now ≡ take size rest.now }
{
    &rest[..size]
}

// Whether a packet may start with this header where so many bytes are left.
fn packet_start(h: Header, left: usize) -> Result<(), Refusal>
    ensures { number_says result ≡ start_number (header_value h) left }
{
    if h.cookie != Header::COOKIE {
        return Err(Refusal::NotCitp);
    }
    if h.version_major != Header::VERSION_MAJOR {
        return Err(Refusal::Version);
    }
    let size = h.message_size as usize;
    if size < Header::LENGTH || LIMIT < size {
        return Err(Refusal::MessageSize);
    }
    if left < size {
        return Err(Refusal::ShortStream);
    }
    Ok(())
}

// ---- the body of a report

impl Message {
    // The length of its headers, with the base header.
    pub fn header_length(self) -> usize
        ensures { result ≡ header_length (layer_of_kind (message_kind self)) }
    {
        match self {
            Message::Pinf(_) => Pinf::HEADER_LENGTH,
            Message::Sdmx(_) => Sdmx::HEADER_LENGTH,
            Message::Fptc(_, _) => Fptc::HEADER_LENGTH,
            Message::Fsel(_) => Fsel::HEADER_LENGTH,
            Message::Finf(_) => Finf::HEADER_LENGTH,
            Message::Caex(_) => Caex::HEADER_LENGTH,
        }
    }
}

// Where the body of a message stands in the stream; of other reports nothing.
pub fn body_place(report: Report, size: u32) -> Block
    ensures { (result.start, result.len) ≡ body_place size (report_says report) }
{
    let Report::Message(m, start, _) = report else {
        return Block { start: 0, len: 0 };
    };
    let len = (size as usize).saturating_sub(m.header_length());
    Block { start, len }
}

impl PacketReport {
    // The part of the stream that a message's ranges and cursors point into; of other reports none.
    pub fn body(self, s: &[u8]) -> &[u8]
        ensures { result.now ≡ body_of_report s.now (packet_says self) }
    {
        body_place(self.report, self.size).bytes(s)
    }
}

// ---- the step

impl Cursor {
    pub fn new() -> Self
        ensures { result.at ≡ 0 }
    {
        Self { at: 0 }
    }

    // The packet at the cursor and the cursor of the next one; none at the stream's end and past it. A refusal ends the walk.
    pub fn step(self, s: &[u8]) -> Result<Option<(PacketReport, Cursor)>, Refusal>
        ensures { step_says self.at result ≡ step_at s.now self.at }
    {
        let at = self.at;
        if s.len() <= at {
            return Ok(None);
        }
        let rest = &s[at..];
        if rest.len() < Header::LENGTH {
            return Err(Refusal::ShortHeader);
        }
        let (h, _) = Header::read_from_bytes(rest).unwrap();
        packet_start(h, rest.len())?;
        let size = h.message_size as usize;
        let report = packet_report(h, at, first_packet(rest, size));
        Ok(Some((
            PacketReport {
                offset: at,
                size: h.message_size,
                request_index: h.request_index,
                report,
            },
            Cursor { at: at + size },
        )))
    }
}
