/// The state of an envelope.
///
/// Source: Yamaha, YM2608 Application Manual, envelope generator.
#[derive(Clone, Copy, PartialEq)]
pub enum EnvelopeState {
    /// The key went on, and the attenuation falls to 0.
    Attack,
    /// The attenuation rises to the sustain level.
    Decay,
    /// It rises further, up to silence, while the key is on.
    Sustain,
    /// The key went off, and it rises up to silence.
    Release,
}
