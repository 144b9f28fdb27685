// Writes a packet by turns: open, then a flat body in one call or a list's head and its items one by one, then close.
#![tactic(auto)]

ghost use Rattle.std.specs.Prelude.{◌≡◌, ◌&&◌, map};
ghost use Rattle.format.specs.Format.{pick};
ghost use Rattle.protocol.specs.Kind as kinds;
ghost use Rattle.refusal.specs.Says.{number_says};
ghost use Rattle.writing.specs.Call as part;
ghost use Rattle.writing.specs.Call.{opens, give, closes, body, laser_feed_list, laser_feed_frame, fixture_list, fixture, identifier};
ghost use Rattle.writing.specs.Writer.{apply, idle, behind_headers};
ghost use Rattle.caex.specs.Codes.{message_type_code};
ghost use Rattle.caex.specs.Write.{point_value};
ghost use Rattle.fixture.specs.Codes.{identifier_type_code};
ghost use Rattle.fixture.specs.Write.{data_value};
ghost use Rattle.sdmx.specs.Says.{level_value};
ghost use Rattle.turns.specs.Says.{kind_is, turn_is};
ghost use Rattle.writer.specs.Says.{state_of, written_says};

use caex::{
    EnterShow, FixtureList, FixtureListMessageType, FixtureRemove, LaserFeedControl,
    LaserFeedFrame, LaserFeedList, LaserPoint,
};
use finf::{Fram, SFra};
use fixture::{Fixture, FixtureData, Identifier, IdentifierType};
use fptc::{Ptch, SPtc, UPtc};
use fsel::{DeSe, Sele};
use pinf::{PLoc, PNam};
use put::{Faults, put_number_4};
use refusal::Refusal;
use sdmx::{Capa, ChBk, ChLs, ChannelLevel, Sxus, UNam};
use turns::{Kind, Turn, write_headers};

// Whose turn it is, and how many bytes of the packet stand. A call answers the state for the next one; after a refusal it stays as it was.
#[derive(Clone, Copy, PartialEq, Eq, Debug)]
pub struct Writer {
    pub turn: Turn,
    pub at: usize,
}

impl Writer {
    pub fn new() -> Self
        ensures { state_of result ≡ record { turn = idle; at = 0 } }
    {
        Writer {
            turn: Turn::Idle,
            at: 0,
        }
    }

    // Whether a call in turn has its headers before it.
    fn due(self, in_turn: bool) -> Result<(), Refusal>
        ensures { number_says result ≡ pick (in_turn && behind_headers (turn_is self.turn) self.at) 0 14 }
    {
        if in_turn && self.turn.behind_headers(self.at) {
            Ok(())
        } else {
            Err(Refusal::OutOfTurn)
        }
    }

    // ---- open and close

    // The headers at the output's first byte, the size field 0. The content hint is written in FPTC alone.
    pub fn open(
        self,
        out: &mut [u8],
        kind: Kind,
        request_index: u16,
        content_hint: u32,
    ) -> Result<Writer, Refusal>
        ensures { written_says self result out.new ≡ apply (opens (kind_is kind) request_index content_hint) (state_of self) out.old }
    {
        self.due(self.turn.is_idle())?;
        let at = write_headers(out, kind, request_index, content_hint)?;
        Ok(Writer {
            turn: Turn::Body(kind),
            at,
        })
    }

    // Fills the size field.
    pub fn close(self, out: &mut [u8]) -> Result<Writer, Refusal>
        ensures { written_says self result out.new ≡ apply closes (state_of self) out.old }
    {
        self.due(self.turn.is_close())?;
        Faults::NONE.weigh(self.at, 0, out.len())?;
        put_number_4(out, 8, self.at);
        Ok(Writer {
            turn: Turn::Idle,
            ..self
        })
    }

    // ---- flat bodies

    pub fn enter_show(self, out: &mut [u8], name: &[u16]) -> Result<Writer, Refusal>
        ensures { written_says self result out.new ≡ apply (give (body kinds.EnterShow name.now)) (state_of self) out.old }
    {
        self.due(self.turn.is_body(Kind::EnterShow))?;
        let at = EnterShow::write_to_bytes(out, self.at, name)?;
        Ok(Writer {
            turn: Turn::Items(Kind::EnterShow, 0),
            at,
        })
    }

    pub fn fixture_remove(
        self,
        out: &mut [u8],
        fixture_identifiers: &[u32],
    ) -> Result<Writer, Refusal>
        ensures { written_says self result out.new
            ≡ apply (give (body kinds.FixtureRemove fixture_identifiers.now)) (state_of self) out.old }
    {
        self.due(self.turn.is_body(Kind::FixtureRemove))?;
        let at = FixtureRemove::write_to_bytes(out, self.at, fixture_identifiers)?;
        Ok(Writer {
            turn: Turn::Items(Kind::FixtureRemove, 0),
            at,
        })
    }

    pub fn laser_feed_control(
        self,
        out: &mut [u8],
        feed_index: u8,
        frame_rate: u8,
    ) -> Result<Writer, Refusal>
        ensures { written_says self result out.new
            ≡ apply (give (body kinds.LaserFeedControl (feed_index, frame_rate))) (state_of self) out.old }
    {
        self.due(self.turn.is_body(Kind::LaserFeedControl))?;
        let at = LaserFeedControl::write_to_bytes(out, self.at, feed_index, frame_rate)?;
        Ok(Writer {
            turn: Turn::Items(Kind::LaserFeedControl, 0),
            at,
        })
    }

    pub fn capa(self, out: &mut [u8], capabilities: &[u16]) -> Result<Writer, Refusal>
        ensures { written_says self result out.new ≡ apply (give (body kinds.Capa capabilities.now)) (state_of self) out.old }
    {
        self.due(self.turn.is_body(Kind::Capa))?;
        let at = Capa::write_to_bytes(out, self.at, capabilities)?;
        Ok(Writer {
            turn: Turn::Items(Kind::Capa, 0),
            at,
        })
    }

    pub fn unam(
        self,
        out: &mut [u8],
        universe_index: u8,
        universe_name: &[u8],
    ) -> Result<Writer, Refusal>
        ensures { written_says self result out.new
            ≡ apply (give (body kinds.UNam (universe_index, universe_name.now))) (state_of self) out.old }
    {
        self.due(self.turn.is_body(Kind::UNam))?;
        let at = UNam::write_to_bytes(out, self.at, universe_index, universe_name)?;
        Ok(Writer {
            turn: Turn::Items(Kind::UNam, 0),
            at,
        })
    }

    pub fn chbk(
        self,
        out: &mut [u8],
        blind: u8,
        universe_index: u8,
        first_channel: u16,
        channel_levels: &[u8],
    ) -> Result<Writer, Refusal>
        ensures { written_says self result out.new
            ≡ apply (give (body kinds.ChBk (blind, (universe_index, (first_channel, channel_levels.now))))) (state_of self) out.old }
    {
        self.due(self.turn.is_body(Kind::ChBk))?;
        let at = ChBk::write_to_bytes(
            out,
            self.at,
            blind,
            universe_index,
            first_channel,
            channel_levels,
        )?;
        Ok(Writer {
            turn: Turn::Items(Kind::ChBk, 0),
            at,
        })
    }

    pub fn chls(self, out: &mut [u8], channel_levels: &[ChannelLevel]) -> Result<Writer, Refusal>
        ensures { written_says self result out.new
            ≡ apply (give (body kinds.ChLs (map level_value channel_levels.now))) (state_of self) out.old }
    {
        self.due(self.turn.is_body(Kind::ChLs))?;
        let at = ChLs::write_to_bytes(out, self.at, channel_levels)?;
        Ok(Writer {
            turn: Turn::Items(Kind::ChLs, 0),
            at,
        })
    }

    pub fn sxus(
        self,
        out: &mut [u8],
        universe_index: u8,
        connection_string: &[u8],
    ) -> Result<Writer, Refusal>
        ensures { written_says self result out.new
            ≡ apply (give (body kinds.Sxus (universe_index, connection_string.now))) (state_of self) out.old }
    {
        self.due(self.turn.is_body(Kind::Sxus))?;
        let at = Sxus::write_to_bytes(out, self.at, universe_index, connection_string)?;
        Ok(Writer {
            turn: Turn::Items(Kind::Sxus, 0),
            at,
        })
    }

    pub fn ptch(
        self,
        out: &mut [u8],
        fixture_identifier: u16,
        universe: u8,
        reserved: u8,
        channel: u16,
        channel_count: u16,
        fixture_make: &[u8],
        fixture_name: &[u8],
    ) -> Result<Writer, Refusal>
        ensures { written_says self result out.new
            ≡ apply (give (body kinds.Ptch
            (fixture_identifier, (universe, (reserved, (channel, (channel_count, (fixture_make.now, fixture_name.now))))))))
            (state_of self) out.old }
    {
        self.due(self.turn.is_body(Kind::Ptch))?;
        let at = Ptch::write_to_bytes(
            out,
            self.at,
            fixture_identifier,
            universe,
            reserved,
            channel,
            channel_count,
            fixture_make,
            fixture_name,
        )?;
        Ok(Writer {
            turn: Turn::Items(Kind::Ptch, 0),
            at,
        })
    }

    pub fn uptc(self, out: &mut [u8], fixture_identifiers: &[u16]) -> Result<Writer, Refusal>
        ensures { written_says self result out.new ≡ apply (give (body kinds.UPtc fixture_identifiers.now)) (state_of self) out.old }
    {
        self.due(self.turn.is_body(Kind::UPtc))?;
        let at = UPtc::write_to_bytes(out, self.at, fixture_identifiers)?;
        Ok(Writer {
            turn: Turn::Items(Kind::UPtc, 0),
            at,
        })
    }

    pub fn sptc(self, out: &mut [u8], fixture_identifiers: &[u16]) -> Result<Writer, Refusal>
        ensures { written_says self result out.new ≡ apply (give (body kinds.SPtc fixture_identifiers.now)) (state_of self) out.old }
    {
        self.due(self.turn.is_body(Kind::SPtc))?;
        let at = SPtc::write_to_bytes(out, self.at, fixture_identifiers)?;
        Ok(Writer {
            turn: Turn::Items(Kind::SPtc, 0),
            at,
        })
    }

    pub fn sele(
        self,
        out: &mut [u8],
        complete: u8,
        reserved: u8,
        fixture_identifiers: &[u16],
    ) -> Result<Writer, Refusal>
        ensures { written_says self result out.new
            ≡ apply (give (body kinds.Sele (complete, (reserved, fixture_identifiers.now)))) (state_of self) out.old }
    {
        self.due(self.turn.is_body(Kind::Sele))?;
        let at = Sele::write_to_bytes(out, self.at, complete, reserved, fixture_identifiers)?;
        Ok(Writer {
            turn: Turn::Items(Kind::Sele, 0),
            at,
        })
    }

    pub fn dese(self, out: &mut [u8], fixture_identifiers: &[u16]) -> Result<Writer, Refusal>
        ensures { written_says self result out.new ≡ apply (give (body kinds.DeSe fixture_identifiers.now)) (state_of self) out.old }
    {
        self.due(self.turn.is_body(Kind::DeSe))?;
        let at = DeSe::write_to_bytes(out, self.at, fixture_identifiers)?;
        Ok(Writer {
            turn: Turn::Items(Kind::DeSe, 0),
            at,
        })
    }

    pub fn sfra(self, out: &mut [u8], fixture_identifiers: &[u16]) -> Result<Writer, Refusal>
        ensures { written_says self result out.new ≡ apply (give (body kinds.SFra fixture_identifiers.now)) (state_of self) out.old }
    {
        self.due(self.turn.is_body(Kind::SFra))?;
        let at = SFra::write_to_bytes(out, self.at, fixture_identifiers)?;
        Ok(Writer {
            turn: Turn::Items(Kind::SFra, 0),
            at,
        })
    }

    pub fn fram(
        self,
        out: &mut [u8],
        fixture_identifier: u16,
        frame_filter_count: u8,
        frame_gobo_count: u8,
        frame_names: &[u8],
    ) -> Result<Writer, Refusal>
        ensures { written_says self result out.new
            ≡ apply (give (body kinds.Fram
            (fixture_identifier, (frame_filter_count, (frame_gobo_count, frame_names.now))))) (state_of self) out.old }
    {
        self.due(self.turn.is_body(Kind::Fram))?;
        let at = Fram::write_to_bytes(
            out,
            self.at,
            fixture_identifier,
            frame_filter_count,
            frame_gobo_count,
            frame_names,
        )?;
        Ok(Writer {
            turn: Turn::Items(Kind::Fram, 0),
            at,
        })
    }

    pub fn pnam(self, out: &mut [u8], name: &[u8]) -> Result<Writer, Refusal>
        ensures { written_says self result out.new ≡ apply (give (body kinds.PNam name.now)) (state_of self) out.old }
    {
        self.due(self.turn.is_body(Kind::PNam))?;
        let at = PNam::write_to_bytes(out, self.at, name)?;
        Ok(Writer {
            turn: Turn::Items(Kind::PNam, 0),
            at,
        })
    }

    pub fn ploc(
        self,
        out: &mut [u8],
        listening_tcp_port: u16,
        kind: &[u8],
        name: &[u8],
        state: &[u8],
    ) -> Result<Writer, Refusal>
        ensures { written_says self result out.new
            ≡ apply (give (body kinds.PLoc (listening_tcp_port, (kind.now, (name.now, state.now))))) (state_of self) out.old }
    {
        self.due(self.turn.is_body(Kind::PLoc))?;
        let at = PLoc::write_to_bytes(out, self.at, listening_tcp_port, kind, name, state)?;
        Ok(Writer {
            turn: Turn::Items(Kind::PLoc, 0),
            at,
        })
    }

    // ---- a fixture list: its head, then for each fixture head, identifiers, data

    pub fn fixture_list_head(
        self,
        out: &mut [u8],
        message_type: FixtureListMessageType,
        fixture_count: usize,
    ) -> Result<Writer, Refusal>
        ensures { written_says self result out.new
            ≡ apply (give (fixture_list (message_type_code message_type) fixture_count)) (state_of self) out.old }
    {
        self.due(self.turn.is_body(Kind::FixtureList))?;
        let at = FixtureList::write_head(out, self.at, message_type, fixture_count)?;
        Ok(Writer {
            turn: Turn::Items(Kind::FixtureList, fixture_count),
            at,
        })
    }

    pub fn fixture_head(
        self,
        out: &mut [u8],
        fixture_identifier: u32,
        manufacturer_name: &[u16],
        fixture_name: &[u16],
        mode_name: &[u16],
        channel_count: u16,
        is_dimmer: u8,
        identifier_count: usize,
    ) -> Result<Writer, Refusal>
        ensures { written_says self result out.new
            ≡ apply (give (fixture
            (fixture_identifier, (manufacturer_name.now, (fixture_name.now, (mode_name.now, (channel_count, is_dimmer)))))
            identifier_count)) (state_of self) out.old }
    {
        self.due(self.turn.is_item(Kind::FixtureList))?;
        let at = Fixture::write_head(
            out,
            self.at,
            fixture_identifier,
            manufacturer_name,
            fixture_name,
            mode_name,
            channel_count,
            is_dimmer,
            identifier_count,
        )?;
        Ok(Writer {
            turn: self.turn.after_fixture(identifier_count),
            at,
        })
    }

    pub fn identifier(
        self,
        out: &mut [u8],
        identifier_type: IdentifierType,
        data: &[u8],
    ) -> Result<Writer, Refusal>
        ensures { written_says self result out.new
            ≡ apply (give (identifier (identifier_type_code identifier_type, «data».now))) (state_of self) out.old }
    {
        self.due(self.turn.is_identifier())?;
        let at = Identifier::write_to_bytes(out, self.at, identifier_type, data)?;
        Ok(Writer {
            turn: self.turn.after_identifier(),
            at,
        })
    }

    pub fn fixture_data(
        self,
        out: &mut [u8],
        fixture_data: FixtureData,
        unit: &[u16],
        circuit: &[u16],
        note: &[u16],
    ) -> Result<Writer, Refusal>
        ensures { written_says self result out.new
            ≡ apply (give (part.fixture_data (data_value fixture_data unit.now circuit.now note.now))) (state_of self) out.old }
    {
        self.due(self.turn.is_data())?;
        let at = fixture_data.write_to_bytes(out, self.at, unit, circuit, note)?;
        Ok(Writer {
            turn: self.turn.after_data(),
            at,
        })
    }

    // ---- laser feeds: a head, then names or points

    pub fn laser_feed_list_head(
        self,
        out: &mut [u8],
        source_key: u32,
        feed_count: usize,
    ) -> Result<Writer, Refusal>
        ensures { written_says self result out.new ≡ apply (give (laser_feed_list source_key feed_count)) (state_of self) out.old }
    {
        self.due(self.turn.is_body(Kind::LaserFeedList))?;
        let at = LaserFeedList::write_head(out, self.at, source_key, feed_count)?;
        Ok(Writer {
            turn: Turn::Items(Kind::LaserFeedList, feed_count),
            at,
        })
    }

    pub fn feed_name(self, out: &mut [u8], feed_name: &[u16]) -> Result<Writer, Refusal>
        ensures { written_says self result out.new ≡ apply (give (part.feed_name feed_name.now)) (state_of self) out.old }
    {
        self.due(self.turn.is_item(Kind::LaserFeedList))?;
        let at = LaserFeedList::write_name(out, self.at, feed_name)?;
        Ok(Writer {
            turn: self.turn.after_item(Kind::LaserFeedList),
            at,
        })
    }

    pub fn laser_feed_frame_head(
        self,
        out: &mut [u8],
        source_key: u32,
        feed_index: u8,
        frame_sequence: u32,
        point_count: usize,
    ) -> Result<Writer, Refusal>
        ensures { written_says self result out.new
            ≡ apply (give (laser_feed_frame source_key feed_index frame_sequence point_count)) (state_of self) out.old }
    {
        self.due(self.turn.is_body(Kind::LaserFeedFrame))?;
        let at = LaserFeedFrame::write_head(
            out,
            self.at,
            source_key,
            feed_index,
            frame_sequence,
            point_count,
        )?;
        Ok(Writer {
            turn: Turn::Items(Kind::LaserFeedFrame, point_count),
            at,
        })
    }

    pub fn laser_point(self, out: &mut [u8], laser_point: LaserPoint) -> Result<Writer, Refusal>
        ensures { written_says self result out.new ≡ apply (give (part.laser_point (point_value laser_point))) (state_of self) out.old }
    {
        self.due(self.turn.is_item(Kind::LaserFeedFrame))?;
        let at = laser_point.write_to_bytes(out, self.at)?;
        Ok(Writer {
            turn: self.turn.after_item(Kind::LaserFeedFrame),
            at,
        })
    }
}
