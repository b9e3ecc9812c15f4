ghost use Rattle.std.specs.Prelude.{◌≡◌, IfOk};
ghost use Rattle.std.specs.Arc.{arc_value};
ghost use Rattle.bus_shared.specs.Board as boards;
ghost use Rattle.vdp_planes.specs.View.{seen, view_of};

use crate::video::power_on;
use fm_port::FmPort;
use md_pads::{PadPort, Recording};
use md_word::{NoMemory, Parcel};
use psg_sound::PsgPort;
use std::alloc::Global;
use std::marker::Model;
use std::sync::Arc;
use vdp_ahead::LineBuffer;
use vdp_planes::{Scene, scene_of};
use vdp_ports::VdpState;

/// What the chips share.
#[derive(Drop)]
pub struct Shared {
    pub(crate) recording: Arc<Recording>,
    pub(crate) pads: (u16, u16),
    pub(crate) port1: PadPort,
    pub(crate) port2: PadPort,
    pub(crate) psg: Box<PsgPort>,
    pub(crate) fm: Box<FmPort>,
    pub(crate) request: bool,
    pub(crate) reset: bool,
    pub(crate) resets: u64,
    pub(crate) parcel: Option<Parcel>,
    pub(crate) vdp: Box<VdpState>,
    /// A buffer of pre-rendered lines, where the board has one.
    pub(crate) line_buffer: Option<Box<LineBuffer>>,
    /// Whether the VDP is as that buffer shows it.
    pub(crate) fits: bool,
}

impl Model for Shared {
    ghost use Rattle.std.specs.Arc.{arc_value};
    ghost use Rattle.std.specs.Prelude.{option_map};
    ghost use Rattle.bus_shared.specs.Board.{Board, IsBoard};
    ghost use Rattle.bus_shared.specs.LineBuffers.{Fits};
    ghost use Rattle.z80_parcel.specs.Parcels.{store_of};

    ghost Value = { Board };

    ghost view = { λ s. record { recording = arc_value s.recording; pads = s.pads; port1 = s.port1; port2 = s.port2; psg = s.psg.value; fm = s.fm.value; request = s.request; reset = s.reset; resets = s.resets; store = option_map store_of s.parcel; vdp = s.vdp.value } };

    ghost invariant = { λ s. IsBoard (record { recording = arc_value s.recording; pads = s.pads; port1 = s.port1; port2 = s.port2; psg = s.psg.value; fm = s.fm.value; request = s.request; reset = s.reset; resets = s.resets; store = option_map store_of s.parcel; vdp = s.vdp.value }) × Fits s.fits (option_map (λ b. b.value) s.line_buffer) s.vdp.value };
}

impl Shared {
    ghost use Rattle.bus_shared.specs.Board.{IsBoard};

    /// The board at power-on with a recording of the pads: no button is pressed, the latches are 0,
    /// and all of the VDP is 0 but the region. The only error is out of memory.
    pub fn power_on(alloc: Global, recording: Arc<Recording>, pal: bool) -> Result<Shared, NoMemory>
        ensures { IfOk result (λ shared. shared ≡ boards.power_on (arc_value recording) pal) }
    {
        Ok(Shared {
            recording,
            pads: (0, 0),
            port1: PadPort::power_on(),
            port2: PadPort::power_on(),
            psg: Box::new(alloc, PsgPort::power_on())?,
            fm: Box::new(alloc, FmPort::power_on())?,
            request: false,
            reset: true,
            resets: 0,
            parcel: None,
            vdp: power_on(alloc, pal)?,
            line_buffer: None,
            fits: false,
        })
    }

    /// Exchanges the recording of the pads. The buttons that are pressed stay until the next line after the
    /// picture.
    pub fn set_recording(&mut self, recording: Arc<Recording>)
        ensures { self.new ≡ record self.old { recording = arc_value recording } }
    {
        self.recording = recording;
    }

    /// The VDP's registers and memories, borrowed as they are, for a picture of a region.
    pub fn scene(&self, pal: bool) -> Scene<'_>
        ensures { seen result ≡ view_of pal self.now.vdp }
    {
        scene_of(&self.vdp, pal)
    }

    /// Whether the console is one for PAL.
    #[inline]
    pub fn pal(&self) -> bool
        ensures { result ≡ self.now.vdp.pal }
    {
        self.vdp.pal
    }

    /// States what holds of every board.
    pub fn known(&self)
        ensures { IsBoard self.now }
    {
        let _psg = &self.psg;
        let _fm = &self.fm;
    }
}
