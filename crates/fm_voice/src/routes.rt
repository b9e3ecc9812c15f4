// The eight algorithms: which operators modulate which, and which are heard.
//
// Source: Yamaha, YM2608 Application Manual, algorithms and self-feedback.

ghost use Rattle.std.specs.Prelude.{◌≡◌, ◌<◌};
ghost use Rattle.fm_voice.specs.Channel as meaning;
ghost use Rattle.fm_voice.specs.Channel.{IsOutput, IsWithin};

/// The sum of the outputs that modulate operator 2.
#[tactic(auto, using(std::proofs::lemmas::Int::ints), unfolding(crate::specs::Channel::into_two))]
pub fn into_two(algorithm: u8, one: i32) -> i32
    requires algorithm { algorithm < 8 }
    requires one { IsOutput one }
    ensures value { result ≡ meaning.into_two algorithm one }
    ensures range { IsWithin 16382 result }
{
    match algorithm {
        0 | 3 | 4 | 5 | 6 => one,
        _ => 0,
    }
}

/// The sum of the outputs that modulate operator 3.
#[tactic(auto, using(std::proofs::lemmas::Int::ints), unfolding(crate::specs::Channel::into_three))]
pub fn into_three(algorithm: u8, one: i32, two: i32) -> i32
    requires algorithm { algorithm < 8 }
    requires one { IsOutput one }
    requires two { IsOutput two }
    ensures value { result ≡ meaning.into_three algorithm one two }
    ensures range { IsWithin 16382 result }
{
    match algorithm {
        0 | 2 => two,
        1 => one + two,
        5 => one,
        _ => 0,
    }
}

/// The sum of the outputs that modulate operator 4.
#[tactic(auto, using(std::proofs::lemmas::Int::ints), unfolding(crate::specs::Channel::into_four))]
pub fn into_four(algorithm: u8, one: i32, two: i32, three: i32) -> i32
    requires algorithm { algorithm < 8 }
    requires one { IsOutput one }
    requires two { IsOutput two }
    requires three { IsOutput three }
    ensures value { result ≡ meaning.into_four algorithm one two three }
    ensures range { IsWithin 16382 result }
{
    match algorithm {
        0 | 1 | 4 => three,
        2 => one + three,
        3 => two + three,
        5 => one,
        _ => 0,
    }
}

/// The sum of what is heard.
#[tactic(auto, using(std::proofs::lemmas::Int::ints), unfolding(crate::specs::Channel::carried))]
pub fn carried(algorithm: u8, one: i32, two: i32, three: i32, four: i32) -> i32
    requires algorithm { algorithm < 8 }
    requires one { IsOutput one }
    requires two { IsOutput two }
    requires three { IsOutput three }
    requires four { IsOutput four }
    ensures value { result ≡ meaning.carried algorithm one two three four }
    ensures range { IsWithin 32764 result }
{
    match algorithm {
        0..4 => four,
        4 => two + four,
        5 | 6 => two + three + four,
        _ => one + two + three + four,
    }
}
