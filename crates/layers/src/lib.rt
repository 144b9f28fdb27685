// The six layers: a layer by its cookie, and each layer's figures, which its own crate has.
#![tactic(auto)]

ghost use Rattle.std.specs.Prelude.{◌≡◌};
ghost use Rattle.protocol.specs.Layer.{cookie, header_length, has_hint, layer_of};
ghost use Rattle.layers.specs.Says.{layer_is, layer_says};

use caex::Caex;
use finf::Finf;
use fptc::Fptc;
use fsel::Fsel;
use header::Header;
use pinf::Pinf;
use sdmx::Sdmx;

#[derive(Clone, Copy, PartialEq, Eq, Debug)]
pub enum Layer {
    Pinf,
    Sdmx,
    Fptc,
    Fsel,
    Finf,
    Caex,
}

impl Layer {
    // The layer of a cookie: the first in the order below that has it.
    pub fn of(cookie: u32) -> Option<Layer>
        ensures { layer_says result ≡ layer_of cookie }
    {
        match cookie {
            Sdmx::COOKIE => Some(Layer::Sdmx),
            Fptc::COOKIE => Some(Layer::Fptc),
            Fsel::COOKIE => Some(Layer::Fsel),
            Finf::COOKIE => Some(Layer::Finf),
            Pinf::COOKIE => Some(Layer::Pinf),
            Caex::COOKIE => Some(Layer::Caex),
            _ => None,
        }
    }

    pub fn cookie(self) -> u32
        ensures { result ≡ cookie (layer_is self) }
    {
        match self {
            Layer::Pinf => Pinf::COOKIE,
            Layer::Sdmx => Sdmx::COOKIE,
            Layer::Fptc => Fptc::COOKIE,
            Layer::Fsel => Fsel::COOKIE,
            Layer::Finf => Finf::COOKIE,
            Layer::Caex => Caex::COOKIE,
        }
    }

    // The length of its headers, with the base header.
    pub fn header_length(self) -> usize
        ensures { result ≡ header_length (layer_is self) }
    {
        match self {
            Layer::Pinf => Pinf::HEADER_LENGTH,
            Layer::Sdmx => Sdmx::HEADER_LENGTH,
            Layer::Fptc => Fptc::HEADER_LENGTH,
            Layer::Fsel => Fsel::HEADER_LENGTH,
            Layer::Finf => Finf::HEADER_LENGTH,
            Layer::Caex => Caex::HEADER_LENGTH,
        }
    }

    // A content hint stands behind base header and content type.
    pub fn has_hint(self) -> bool
        ensures { result ≡ has_hint (layer_is self) }
    {
        Header::LENGTH + 4 < self.header_length()
    }
}
