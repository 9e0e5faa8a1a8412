// The operations on the current window.
use crate::answers::say_refused;
use crate::operation::WindowCall;
use adwin::{Adwin, Verdict};
use std::io;
use words::Bits;

// One value more, by the update of a lent window, which `updated` lends its own; the streams update theirs without it. The words stand in
// `limits` too: the crate of the window has no texts.
fn update(rt: &impl Print, window: &mut Adwin, value: f64) -> io::Result<()> {
    let after = adwin_lent::updated(*window, value);
    *window = after.window;
    match after.answer {
        Ok(Verdict::Quiet) => println!(rt; "quiet"),
        Ok(Verdict::Alarm) => println!(rt; "alarm"),
        Err(error) => say_refused(rt, error),
    }
}

fn show(rt: &impl Print, window: &Adwin) -> io::Result<()> {
    let width = window.width();
    let mean = Bits(window.mean());
    let variance = Bits(window.variance());
    println!(rt; "window {width} {mean} {variance}")
}

// A call on the current window.
pub fn act(rt: &impl Print, window: &mut Adwin, call: WindowCall) -> io::Result<()> {
    match call {
        WindowCall::Update(value) => update(rt, window, value),
        WindowCall::Show => show(rt, window),
    }
}
