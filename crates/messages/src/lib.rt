// The lines of messages of five layers, put at a place of a listing. Lent output holds it from a character on, as far as it reaches;
// each function answers the place behind its text, or the output's end.
#![tactic(auto)]

ghost use Rattle.std.specs.Prelude.{◌≡◌, refl};
ghost use Rattle.std.proofs.Math.Option.{none, some};
ghost use Rattle.text.specs.Prints.{Prints};
ghost use Rattle.text.specs.Text.{chars};
ghost use Rattle.protocol.specs.Kind as kind;
ghost use Rattle.protocol.specs.Kind.{Kind, body_of, name_limit, channel_level_format};
ghost use Rattle.format.specs.View.{View};
ghost use Rattle.lines.specs.Lines.{bytes, ◌and◌, Lists};
ghost use Rattle.pinf.specs.Says as pinf_says;
ghost use Rattle.sdmx.specs.Says as sdmx_says;
ghost use Rattle.sdmx.specs.Says.{channel_level_view};
ghost use Rattle.fptc.specs.Says as fptc_says;
ghost use Rattle.fsel.specs.Says as fsel_says;
ghost use Rattle.finf.specs.Says as finf_says;
ghost use Rattle.names.specs.Names as names;
ghost use Rattle.names.specs.Names.{kind_name};
ghost use Rattle.names.specs.Messages.{message_lines};

use finf::Fram;
use fptc::Ptch;
use fsel::Sele;
use lines::{ItemLines, put_block, put_cstring, put_list, put_u16_list};
use pinf::PLoc;
use sdmx::{ChBk, ChannelLevel};
use text::{put_chars_line, put_decimal_line};
use wire::{CString, List};

// How a message of a layer is listed.
pub trait MessageLines: Copy {
    ghost kind: { Self → Kind };

    ghost view: { (m : Self) → View (body_of (kind m)) };

    // The name of its kind.
    fn name(self) -> &'static [u8]
        ensures { result.now ≡ chars (kind_name (kind self)) };

    fn put_fields(self, out: &mut [u8], from: u32, at: usize, body: &[u8]) -> usize
        ensures { Lists from (names.listed (kind self)) body.now (view self) at out.old result out.new };
}

// A message of a layer without a content hint.
pub fn put_message<M: MessageLines>(
    out: &mut [u8],
    from: u32,
    at: usize,
    m: M,
    body: &[u8],
) -> usize
    ensures { Prints from (message_lines (M.kind m) none body.now (M.view m)) at out.old result out.new }
{
    let at = put_chars_line(out, from, at, b"kind", m.name());
    m.put_fields(out, from, at, body)
}

// A message with its content hint.
pub fn put_hinted_message<M: MessageLines>(
    out: &mut [u8],
    from: u32,
    at: usize,
    m: M,
    content_hint: u32,
    body: &[u8],
) -> usize
    ensures { Prints from (message_lines (M.kind m) (some content_hint) body.now (M.view m)) at out.old result out.new }
{
    let name = m.name();
    let at = put_chars_line(out, from, at, b"kind", name);
    let at = put_decimal_line(out, from, at, b"content_hint", content_hint as usize);
    m.put_fields(out, from, at, body)
}

// The list that five kinds end with.
fn put_fixture_identifiers(
    out: &mut [u8],
    from: u32,
    at: usize,
    list: List<u16, u16>,
    body: &[u8],
) -> usize
    ensures { Lists from (names.numbers_of {w = 2} {v = 2} "fixture_identifiers") body.now (list.at, list.left) at out.old result out.new }
{
    put_u16_list(
        out,
        from,
        at,
        b"fixture_identifiers.count",
        b"fixture_identifiers",
        list,
        body,
    )
}

// ---- PINF

fn put_ploc(out: &mut [u8], from: u32, at: usize, x: PLoc, body: &[u8]) -> usize
    ensures { Lists from (names.listed kind.PLoc) body.now (pinf_says.ploc_view x) at out.old result out.new }
{
    let at = put_decimal_line(
        out,
        from,
        at,
        b"listening_tcp_port",
        x.listening_tcp_port as usize,
    );
    let at = put_cstring(out, from, at, b"kind", x.kind, body);
    let at = put_cstring(out, from, at, b"name", x.name, body);
    put_cstring(out, from, at, b"state", x.state, body)
}

impl MessageLines for pinf::Message {
    ghost kind = { pinf_says.message_kind };

    ghost view = { pinf_says.message_view };

    fn name(self) -> &'static [u8] {
        match self {
            pinf::Message::PNam(_) => b"PNam",
            pinf::Message::PLoc(_) => b"PLoc",
        }
    }

    fn put_fields(self, out: &mut [u8], from: u32, at: usize, body: &[u8]) -> usize {
        match self {
            pinf::Message::PNam(x) => put_cstring(out, from, at, b"name", x.name, body),
            pinf::Message::PLoc(x) => put_ploc(out, from, at, x, body),
        }
    }
}

// ---- SDMX

// A universe and a string of it.
fn put_universe(
    out: &mut [u8],
    from: u32,
    at: usize,
    universe_index: u8,
    name: &[u8],
    x: CString,
    body: &[u8],
) -> usize
    ensures { Lists from (names.number_of {w = 1} "universe_index" and bytes {m = name_limit} name.now)
        body.now (universe_index, (x.start, x.len)) at out.old result out.new }
{
    let at = put_decimal_line(out, from, at, b"universe_index", universe_index as usize);
    put_cstring(out, from, at, name, x, body)
}

fn put_chbk(out: &mut [u8], from: u32, at: usize, x: ChBk, body: &[u8]) -> usize
    ensures { Lists from (names.listed kind.ChBk) body.now (sdmx_says.chbk_view x) at out.old result out.new }
{
    let at = put_decimal_line(out, from, at, b"blind", x.blind as usize);
    let at = put_decimal_line(out, from, at, b"universe_index", x.universe_index as usize);
    let at = put_decimal_line(out, from, at, b"first_channel", x.first_channel as usize);
    put_block(
        out,
        from,
        at,
        b"channel_levels.count",
        b"channel_levels",
        x.channel_levels,
        body,
    )
}

// The fields of a record.
#[derive(Clone, Copy)]
struct LevelLines;

impl ItemLines<ChannelLevel> for LevelLines {
    ghost form = { (channel_level_format, channel_level_view) };

    ghost listed = { λ _. names.channel_level };

    ghost read_so = { refl };

    fn put(self, out: &mut [u8], from: u32, at: usize, x: ChannelLevel, body: &[u8]) -> usize {
        let at = put_decimal_line(out, from, at, b"universe_index", x.universe_index as usize);
        let at = put_decimal_line(out, from, at, b"channel", x.channel as usize);
        put_decimal_line(out, from, at, b"channel_level", x.channel_level as usize)
    }
}

impl MessageLines for sdmx::Message {
    ghost kind = { sdmx_says.message_kind };

    ghost view = { sdmx_says.message_view };

    fn name(self) -> &'static [u8] {
        match self {
            sdmx::Message::Capa(_) => b"Capa",
            sdmx::Message::UNam(_) => b"UNam",
            sdmx::Message::ChBk(_) => b"ChBk",
            sdmx::Message::ChLs(_) => b"ChLs",
            sdmx::Message::Sxus(_) => b"Sxus",
        }
    }

    fn put_fields(self, out: &mut [u8], from: u32, at: usize, body: &[u8]) -> usize {
        match self {
            sdmx::Message::Capa(x) => put_u16_list(
                out,
                from,
                at,
                b"capabilities.count",
                b"capabilities",
                x.capabilities,
                body,
            ),
            sdmx::Message::UNam(x) => put_universe(
                out,
                from,
                at,
                x.universe_index,
                b"universe_name",
                x.universe_name,
                body,
            ),
            sdmx::Message::ChBk(x) => put_chbk(out, from, at, x, body),
            sdmx::Message::ChLs(x) => put_list(
                out,
                from,
                at,
                b"channel_levels.count",
                x.channel_levels,
                body,
                LevelLines,
            ),
            sdmx::Message::Sxus(x) => put_universe(
                out,
                from,
                at,
                x.universe_index,
                b"connection_string",
                x.connection_string,
                body,
            ),
        }
    }
}

// ---- FPTC

fn put_ptch(out: &mut [u8], from: u32, at: usize, x: Ptch, body: &[u8]) -> usize
    ensures { Lists from (names.listed kind.Ptch) body.now (fptc_says.ptch_view x) at out.old result out.new }
{
    let at = put_decimal_line(
        out,
        from,
        at,
        b"fixture_identifier",
        x.fixture_identifier as usize,
    );
    let at = put_decimal_line(out, from, at, b"universe", x.universe as usize);
    let at = put_decimal_line(out, from, at, b"reserved", x.reserved as usize);
    let at = put_decimal_line(out, from, at, b"channel", x.channel as usize);
    let at = put_decimal_line(out, from, at, b"channel_count", x.channel_count as usize);
    let at = put_cstring(out, from, at, b"fixture_make", x.fixture_make, body);
    put_cstring(out, from, at, b"fixture_name", x.fixture_name, body)
}

impl MessageLines for fptc::Message {
    ghost kind = { fptc_says.message_kind };

    ghost view = { fptc_says.message_view };

    fn name(self) -> &'static [u8] {
        match self {
            fptc::Message::Ptch(_) => b"Ptch",
            fptc::Message::UPtc(_) => b"UPtc",
            fptc::Message::SPtc(_) => b"SPtc",
        }
    }

    fn put_fields(self, out: &mut [u8], from: u32, at: usize, body: &[u8]) -> usize {
        match self {
            fptc::Message::Ptch(x) => put_ptch(out, from, at, x, body),
            fptc::Message::UPtc(x) => put_fixture_identifiers(
                out,
                from,
                at,
                x.fixture_identifiers,
                body,
            ),
            fptc::Message::SPtc(x) => put_fixture_identifiers(
                out,
                from,
                at,
                x.fixture_identifiers,
                body,
            ),
        }
    }
}

// ---- FSEL

fn put_sele(out: &mut [u8], from: u32, at: usize, x: Sele, body: &[u8]) -> usize
    ensures { Lists from (names.listed kind.Sele) body.now (fsel_says.sele_view x) at out.old result out.new }
{
    let at = put_decimal_line(out, from, at, b"complete", x.complete as usize);
    let at = put_decimal_line(out, from, at, b"reserved", x.reserved as usize);
    put_fixture_identifiers(out, from, at, x.fixture_identifiers, body)
}

impl MessageLines for fsel::Message {
    ghost kind = { fsel_says.message_kind };

    ghost view = { fsel_says.message_view };

    fn name(self) -> &'static [u8] {
        match self {
            fsel::Message::Sele(_) => b"Sele",
            fsel::Message::DeSe(_) => b"DeSe",
        }
    }

    fn put_fields(self, out: &mut [u8], from: u32, at: usize, body: &[u8]) -> usize {
        match self {
            fsel::Message::Sele(x) => put_sele(out, from, at, x, body),
            fsel::Message::DeSe(x) => put_fixture_identifiers(
                out,
                from,
                at,
                x.fixture_identifiers,
                body,
            ),
        }
    }
}

// ---- FINF

fn put_fram(out: &mut [u8], from: u32, at: usize, x: Fram, body: &[u8]) -> usize
    ensures { Lists from (names.listed kind.Fram) body.now (finf_says.fram_view x) at out.old result out.new }
{
    let at = put_decimal_line(
        out,
        from,
        at,
        b"fixture_identifier",
        x.fixture_identifier as usize,
    );
    let at = put_decimal_line(
        out,
        from,
        at,
        b"frame_filter_count",
        x.frame_filter_count as usize,
    );
    let at = put_decimal_line(
        out,
        from,
        at,
        b"frame_gobo_count",
        x.frame_gobo_count as usize,
    );
    put_cstring(out, from, at, b"frame_names", x.frame_names, body)
}

impl MessageLines for finf::Message {
    ghost kind = { finf_says.message_kind };

    ghost view = { finf_says.message_view };

    fn name(self) -> &'static [u8] {
        match self {
            finf::Message::SFra(_) => b"SFra",
            finf::Message::Fram(_) => b"Fram",
        }
    }

    fn put_fields(self, out: &mut [u8], from: u32, at: usize, body: &[u8]) -> usize {
        match self {
            finf::Message::SFra(x) => put_fixture_identifiers(
                out,
                from,
                at,
                x.fixture_identifiers,
                body,
            ),
            finf::Message::Fram(x) => put_fram(out, from, at, x, body),
        }
    }
}
