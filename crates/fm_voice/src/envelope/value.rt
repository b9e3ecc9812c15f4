// What a step makes of the attenuation in each state.

ghost use Rattle.std.specs.Prelude.{◌≡◌, ◌<◌, ◌≤◌};
ghost use Rattle.fm_voice.specs.Envelopes as meaning;

/// In attack the attenuation falls, by the more the higher it is.
#[tactic(auto, unfolding(crate::specs::Envelopes::attacked))]
pub fn attacked(i: u32, v: u32) -> u32
    requires step { i ≤ 8 }
    requires above { 0 < v }
    requires v { v ≤ 1023 }
    ensures value { result ≡ meaning.attacked i v }
    ensures below { result ≤ v }
{
    v - ((v + 1) * i + 15) / 16
}

/// In decay it rises until it has reached the sustain level.
#[tactic(auto, unfolding(crate::specs::Envelopes::decayed))]
pub fn decayed(i: u32, level: u32, v: u32) -> u32
    requires step { i ≤ 8 }
    requires level { level ≤ 992 }
    requires v { v ≤ 1023 }
    ensures value { result ≡ meaning.decayed i level v }
    ensures below { result ≤ 1023 }
{
    if v < level { v + i } else { v }
}

/// In sustain and release it rises up to silence.
#[tactic(auto, unfolding(crate::specs::Envelopes::fallen))]
pub fn fallen(i: u32, v: u32) -> u32
    requires step { i ≤ 8 }
    requires v { v ≤ 1023 }
    ensures value { result ≡ meaning.fallen i v }
    ensures below { result ≤ 1023 }
{
    (v + i).min(1023)
}
