//! What the table of a port results in.
ghost use Rattle.std.specs.Prelude.{◌≡◌, ℕ, false};
ghost use Rattle.md_pads.specs.Pad.{Port, pad_value};

/// A three-button pad reads the same whatever falls of TH its port counted, and whenever.
pub fn three_buttons_know_no_count()
    ensures { (port : Port) (cycle other count fall word : ℕ)
        → pad_value cycle false (record port { count = count; fall = fall }) word ≡ pad_value other false port word }
{}
