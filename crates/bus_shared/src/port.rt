ghost use Rattle.std.specs.Prelude.{◌≡◌};
ghost use Rattle.bus_shared.specs.Video as video;

/// A port of the VDP or of the PSG beside it, C00000h to C0001Fh. Source: Genesis Technical
/// Overview, the VDP's ports.
#[derive(Clone, Copy, PartialEq, Eq, Debug)]
pub enum VideoPort {
    /// The data port, C00000h to C00003h.
    Data,
    /// The control port, which reads the status, C00004h to C00007h.
    Control,
    /// The HV counter, C00008h to C0000Fh: it ignores writes.
    Counter,
    /// The PSG, C00010h to C00017h: it reads all ones.
    Sound,
    /// C00018h to C0001Fh: they read all ones and ignore writes.
    Unused,
}

impl VideoPort {
    /// The port at an address of the area.
    #[tactic(auto, unfolding(crate::specs::Video::port_at))]
    pub fn at(address: u32) -> VideoPort
        ensures { result ≡ video.port_at address }
    {
        match address % 0x20 {
            0x00..=0x03 => VideoPort::Data,
            0x04..=0x07 => VideoPort::Control,
            0x08..=0x0f => VideoPort::Counter,
            0x10..=0x17 => VideoPort::Sound,
            _ => VideoPort::Unused,
        }
    }
}
