// What was read, compared with the canonical bytes that are due (differential/src/canon.rs).
use caex::LaserPoint;
use fixture::{Fixture, FixtureData, FixtureDataStrings, FloatBits, Identifier};
use sdmx::ChannelLevel;
use wire::{Block, CString, Count, Cursor, Item, List, Ucs2};

// What a list holds, as the canonical bytes have it.
pub(crate) trait Canonical: Item {
    fn compared(self, x: Compared, due: &[u8], body: &[u8]) -> Compared;
}

// So many bytes are compared, and whether all were the same.
#[derive(Clone, Copy)]
pub(crate) struct Compared {
    pub(crate) at: usize,
    pub(crate) same: bool,
}

impl Compared {
    pub(crate) fn different(self) -> Compared {
        Compared {
            at: self.at,
            same: false,
        }
    }

    // Whether all bytes were compared and were the same.
    pub(crate) fn is_whole(self, due: &[u8]) -> bool {
        self.same && self.at == due.len()
    }

    // ---- numbers

    pub(crate) fn u8(self, due: &[u8], n: u8) -> Compared {
        if due.get(self.at) != Some(&n) {
            return self.different();
        }
        Compared {
            at: self.at + 1,
            same: self.same,
        }
    }

    pub(crate) fn u16(self, due: &[u8], n: u16) -> Compared {
        self.all(due, &n.to_le_bytes())
    }

    pub(crate) fn u32(self, due: &[u8], n: u32) -> Compared {
        self.all(due, &n.to_le_bytes())
    }

    pub(crate) fn length(self, due: &[u8], n: usize) -> Compared {
        self.u32(due, (n % 4294967296) as u32)
    }

    // ---- strings and blocks

    fn all(self, due: &[u8], bytes: &[u8]) -> Compared {
        let mut x = self;
        for byte in bytes {
            x = x.u8(due, *byte);
        }
        x
    }

    pub(crate) fn bytes(self, due: &[u8], bytes: &[u8]) -> Compared {
        self.length(due, bytes.len()).all(due, bytes)
    }

    pub(crate) fn block(self, due: &[u8], body: &[u8], block: Block) -> Compared {
        self.bytes(due, block.bytes(body))
    }

    pub(crate) fn cstring(self, due: &[u8], body: &[u8], string: CString) -> Compared {
        self.bytes(due, string.bytes(body))
    }

    pub(crate) fn ucs2(self, due: &[u8], body: &[u8], string: Ucs2) -> Compared {
        let len = string.len;
        let mut x = self.length(due, len);
        let mut c = Cursor { at: string.start };
        for _ in 0..len {
            let Ok((unit, next)) = c.u16(body) else {
                return x.different();
            };
            x = x.u16(due, unit);
            c = next;
        }
        x
    }

    // ---- lists: a 1 before each item, a 0 behind the last; the bound is above any count

    pub(crate) fn list<T: Canonical, N: Count>(
        self,
        due: &[u8],
        body: &[u8],
        list: List<T, N>,
    ) -> Compared {
        let mut x = self;
        let mut rest = list;
        for _ in 0..65536 {
            let Ok(Some((item, more))) = rest.next(body) else {
                return x.u8(due, 0);
            };
            x = item.compared(x.u8(due, 1), due, body);
            rest = more;
        }
        x
    }

    // ---- fixtures

    fn floats(self, due: &[u8], bits: FloatBits) -> Compared {
        let x = self.u32(due, bits.position_x);
        let x = x.u32(due, bits.position_y);
        let x = x.u32(due, bits.position_z);
        let x = x.u32(due, bits.angle_x);
        let x = x.u32(due, bits.angle_y);
        x.u32(due, bits.angle_z)
    }

    fn fixture_data(
        self,
        due: &[u8],
        body: &[u8],
        data: FixtureData,
        strings: FixtureDataStrings,
    ) -> Compared {
        let x = self.u8(due, data.patched);
        let x = x.u8(due, data.universe);
        let x = x.u16(due, data.universe_channel);
        let x = x.ucs2(due, body, strings.unit);
        let x = x.u16(due, data.channel);
        let x = x.ucs2(due, body, strings.circuit);
        let x = x.ucs2(due, body, strings.note);
        x.floats(due, data.bits)
    }
}

// ---- items

impl Canonical for u16 {
    fn compared(self, x: Compared, due: &[u8], body: &[u8]) -> Compared {
        x.u16(due, self)
    }
}

impl Canonical for u32 {
    fn compared(self, x: Compared, due: &[u8], body: &[u8]) -> Compared {
        x.u32(due, self)
    }
}

impl Canonical for Ucs2 {
    fn compared(self, x: Compared, due: &[u8], body: &[u8]) -> Compared {
        x.ucs2(due, body, self)
    }
}

impl Canonical for ChannelLevel {
    fn compared(self, x: Compared, due: &[u8], body: &[u8]) -> Compared {
        let x = x.u8(due, self.universe_index);
        let x = x.u16(due, self.channel);
        x.u8(due, self.channel_level)
    }
}

impl Canonical for LaserPoint {
    fn compared(self, x: Compared, due: &[u8], body: &[u8]) -> Compared {
        let x = x.u8(due, self.x_low_byte);
        let x = x.u8(due, self.y_low_byte);
        let x = x.u8(due, self.xy_high_nibbles);
        x.u16(due, self.color)
    }
}

impl Canonical for Identifier {
    fn compared(self, x: Compared, due: &[u8], body: &[u8]) -> Compared {
        let x = x.u8(due, self.identifier_type.code());
        let x = x.u16(due, (self.data_size() % 65536) as u16);
        x.block(due, body, self.data)
    }
}

impl Canonical for Fixture {
    fn compared(self, x: Compared, due: &[u8], body: &[u8]) -> Compared {
        let x = x.u32(due, self.fixture_identifier);
        let x = x.ucs2(due, body, self.manufacturer_name);
        let x = x.ucs2(due, body, self.fixture_name);
        let x = x.ucs2(due, body, self.mode_name);
        let x = x.u16(due, self.channel_count);
        let x = x.u8(due, self.is_dimmer);
        let x = x.u8(due, self.identifier_count());
        let x = x.list(due, body, self.identifiers);
        x.fixture_data(due, body, self.data, self.data_strings)
    }
}
