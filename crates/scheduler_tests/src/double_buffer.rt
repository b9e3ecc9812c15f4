use std::alloc::Global;
use std::sync::Wait;
use std::test::Fail;
use vdp_ahead::{DoubleBuffer, LineBuffer};
use vdp_ports::VdpState;

/// A line buffer that goes by way of a double buffer, and returns drawn.
fn drawn<R: Wait>(rt: &R, line_buffer: Box<LineBuffer>) -> Option<Box<LineBuffer>> {
    let double_buffer = DoubleBuffer::new();
    let place = double_buffer.second();
    if double_buffer.look()
        || place.take_drawn().is_some()
        || place.ask(line_buffer).is_some()
        || !double_buffer.look()
    {
        return None;
    }
    double_buffer.draw(rt);
    if double_buffer.look() {
        return None;
    }
    place.take_drawn()
}

/// Whether a drawn line buffer was in either slot of a double buffer.
fn are_drawn(double_buffer: &DoubleBuffer) -> [bool; 2] {
    [
        double_buffer.first().take_drawn().is_some(),
        double_buffer.second().take_drawn().is_some(),
    ]
}

/// Whether one was drawn after each of two draws of a double buffer with a line buffer in both slots.
fn drawn_in_turn<R: Wait>(rt: &R, one: Box<LineBuffer>, other: Box<LineBuffer>) -> [[bool; 2]; 2] {
    let double_buffer = DoubleBuffer::new();
    if double_buffer.second().ask(one).is_some() || double_buffer.first().ask(other).is_some() {
        return [[false; 2]; 2];
    }
    double_buffer.draw(rt);
    let first = are_drawn(&double_buffer);
    double_buffer.draw(rt);
    [first, are_drawn(&double_buffer)]
}

/// A line buffer without a line.
fn blank(alloc: Global) -> Result<Box<LineBuffer>, Fail> {
    LineBuffer::blank(alloc).map_err(|_| Fail::from("no memory"))
}

/// Which of the lines 87, 88, 223 and 224 a line buffer has.
fn lines_of(line_buffer: &LineBuffer) -> [bool; 4] {
    [87, 88, 223, 224].map(|line| line_buffer.has(line, false))
}

#[test]
fn lines_are_drawn_on_a_double_buffer(rt: HostRuntime) -> Result<(), Fail> {
    let mut line_buffer = blank(rt.alloc())?;
    line_buffer.begin(&VdpState::power_on(rt.alloc(), false)?, false, 88, 240);
    let Some(line_buffer) = drawn(&rt, line_buffer) else {
        return Err(Fail::from("not drawn"));
    };
    assert!(rt; lines_of(&line_buffer) == [false, true, true, false]);
    Ok(())
}

#[test]
fn the_line_buffer_in_the_first_place_is_drawn_first(rt: HostRuntime) -> Result<(), Fail> {
    let drawn = drawn_in_turn(&rt, blank(rt.alloc())?, blank(rt.alloc())?);
    assert!(rt; drawn == [[true, false], [false, true]]);
    Ok(())
}
