// A step of the walk as plain fields. A message's own fields are read from its body by its kind's reader.
ghost use Rattle.std.specs.Prelude.{◌≡◌};
ghost use Rattle.turns.specs.Says.{kind_is};
ghost use Rattle.citp.specs.Says.{message_kind, message_hint, packet_says, step_told};
ghost use Rattle.plain.specs.Report.{or_zero, packet_step, flat_report, end_step, flat_step};

use crate::reason::Reason;
use citp::{Cursor, Message, PacketReport, Report, body_place};
use turns::Kind;

#[repr(C)]
#[derive(Clone, Copy, Default)]
pub struct StepAnswer {
    // 0 the end, 1 message, 2 unknown layer, 3 unknown kind, 4 fragment, 5 refused
    pub report: u8,
    // of the end or of a refusal
    pub number: u8,
    pub kind: u8,
    pub request_index: u16,
    pub part: u16,
    pub part_count: u16,
    pub size: u32,
    pub layer: u32,
    pub content_type: u32,
    pub content_hint: u32,
    pub offset: usize,
    pub next: usize,
    pub body_start: usize,
    pub body_len: usize,
    pub added: usize,
}

// ---- a message's kind, and its content hint

fn kind(m: Message) -> Kind
    ensures { kind_is result ≡ message_kind m }
{
    match m {
        Message::Pinf(pinf::Message::PNam(_)) => Kind::PNam,
        Message::Pinf(pinf::Message::PLoc(_)) => Kind::PLoc,
        Message::Sdmx(sdmx::Message::Capa(_)) => Kind::Capa,
        Message::Sdmx(sdmx::Message::UNam(_)) => Kind::UNam,
        Message::Sdmx(sdmx::Message::ChBk(_)) => Kind::ChBk,
        Message::Sdmx(sdmx::Message::ChLs(_)) => Kind::ChLs,
        Message::Sdmx(sdmx::Message::Sxus(_)) => Kind::Sxus,
        Message::Fptc(fptc::Message::Ptch(_), _) => Kind::Ptch,
        Message::Fptc(fptc::Message::UPtc(_), _) => Kind::UPtc,
        Message::Fptc(fptc::Message::SPtc(_), _) => Kind::SPtc,
        Message::Fsel(fsel::Message::Sele(_)) => Kind::Sele,
        Message::Fsel(fsel::Message::DeSe(_)) => Kind::DeSe,
        Message::Finf(finf::Message::SFra(_)) => Kind::SFra,
        Message::Finf(finf::Message::Fram(_)) => Kind::Fram,
        Message::Caex(caex::Message::EnterShow(_)) => Kind::EnterShow,
        Message::Caex(caex::Message::FixtureList(_)) => Kind::FixtureList,
        Message::Caex(caex::Message::FixtureRemove(_)) => Kind::FixtureRemove,
        Message::Caex(caex::Message::LaserFeedControl(_)) => Kind::LaserFeedControl,
        Message::Caex(caex::Message::LaserFeedList(_)) => Kind::LaserFeedList,
        Message::Caex(caex::Message::LaserFeedFrame(_)) => Kind::LaserFeedFrame,
    }
}

// 0 outside FPTC.
fn content_hint(m: Message) -> u32
    ensures { result ≡ or_zero (message_hint m) }
{
    match m {
        Message::Fptc(_, hint) => hint,
        _ => 0,
    }
}

// ---- the step

// What every report has, the rest 0.
fn packet(p: PacketReport, next: usize) -> StepAnswer
    ensures { result ≡ packet_step (packet_says p) next 0 0 0 0 0 0 0 0 0 }
{
    let body = body_place(p.report, p.size);
    StepAnswer {
        request_index: p.request_index,
        size: p.size,
        offset: p.offset,
        next,
        body_start: body.start,
        body_len: body.len,
        ..StepAnswer::default()
    }
}

fn report(p: PacketReport, next: usize) -> StepAnswer
    ensures { result ≡ flat_report (packet_says p) next }
{
    let mut r = packet(p, next);
    match p.report {
        Report::Message(m, _, added) => {
            r.report = 1;
            r.kind = kind(m) as u8;
            r.content_hint = content_hint(m);
            r.added = added;
            r
        }
        Report::UnknownLayer(layer) => {
            r.report = 2;
            r.layer = layer;
            r
        }
        Report::UnknownKind(layer, content_type) => {
            r.report = 3;
            r.layer = layer;
            r.content_type = content_type;
            r
        }
        Report::Fragment(part, part_count) => {
            r.report = 4;
            r.part = part;
            r.part_count = part_count;
            r
        }
        Report::Refused(number) => {
            r.report = 5;
            r.number = number;
            r
        }
    }
}

fn end(number: u8, offset: usize) -> StepAnswer
    ensures { result ≡ end_step number offset }
{
    StepAnswer {
        number,
        offset,
        next: offset,
        ..StepAnswer::default()
    }
}

// What a step from an offset answered.
pub fn step_answer<R: Reason>(
    offset: usize,
    step: Result<Option<(PacketReport, Cursor)>, R>,
) -> StepAnswer
    ensures { result ≡ flat_step (step_told R.told offset step) }
{
    match step {
        Ok(Some((p, next))) => report(p, next.at),
        Ok(None) => end(0, offset),
        Err(reason) => end(reason.number(), offset),
    }
}
