// A made-up session of readings for `families`: a sound movement, a worn kind, another worn kind, two strays, and the sound one that drifts.
#![tactic(auto)]

ghost use Rattle.std.specs.Prelude.{◌≡◌, ◌≤◌, length, IfOk};
ghost use Rattle.text.specs.Text.{text_of, Added};
ghost use Rattle.text.specs.Lent.{write_told, write_of};
ghost use Rattle.sample_session.specs.Sample.{word_bytes, double_bytes, unit, reading_bytes, phase_bytes, settings_bytes, sample_bytes};

use text::{Text, TooShort};

// So many readings around a centre, each apart from it by at most half the spread in each figure. Seconds a day that
// the movement gains and loses, degrees, tenths of a millisecond; the walk is eighths of a second a day, and of a degree, a reading.
#[derive(Clone, Copy, Debug, PartialEq, Eq)]
pub struct Phase {
    pub count: u32,
    pub gain: u32,
    pub loss: u32,
    pub amplitude: u32,
    pub beat_error: u32,
    pub spread: u32,
    pub walk: u32,
}

// A sound movement.
const SOUND: Phase = Phase {
    count: 96,
    gain: 4,
    loss: 0,
    amplitude: 285,
    beat_error: 2,
    spread: 2,
    walk: 0,
};

// A worn kind, which runs slow.
const WORN: Phase = Phase {
    count: 32,
    gain: 0,
    loss: 28,
    amplitude: 215,
    beat_error: 15,
    spread: 2,
    walk: 0,
};

// Another worn kind, run dry.
const DRY: Phase = Phase {
    count: 64,
    gain: 35,
    loss: 0,
    amplitude: 190,
    beat_error: 30,
    spread: 2,
    walk: 0,
};

// A stray of each side.
const SLOW_STRAY: Phase = Phase {
    count: 1,
    gain: 0,
    loss: 44,
    amplitude: 225,
    beat_error: 9,
    spread: 0,
    walk: 0,
};

const FAST_STRAY: Phase = Phase {
    count: 1,
    gain: 18,
    loss: 0,
    amplitude: 200,
    beat_error: 24,
    spread: 0,
    walk: 0,
};

// The worn kind at two rates and between them; at last the sound movement, unsteady, drifts.
const PHASES: [Phase; 8] = [
    SOUND,
    WORN,
    Phase { loss: 16, ..WORN },
    Phase { loss: 22, ..WORN },
    DRY,
    SLOW_STRAY,
    FAST_STRAY,
    Phase {
        spread: 8,
        walk: 3,
        ..SOUND
    },
];

// Little-endian.
fn add_word(text: &mut Text, word: u64)
    ensures { Added text.old (word_bytes word) text.new }
{
    text.add(&word.to_le_bytes());
}

// The bits of a double; a NaN, which no figure here is, is written as 0. picture_cases has its own, since it writes NaNs.
fn add_double(text: &mut Text, x: f64)
    ensures { Added text.old (double_bytes x) text.new }
{
    if x.is_nan() {
        return add_word(text, 0);
    }
    add_word(text, x.to_bits());
}

// From -0.5 to 0.5: the fraction of i times m parts of 65,536.
fn unit(i: u32, m: u32) -> f64
    ensures { result ≡ unit i m }
{
    let k = (i as u64 * m as u64 % 65536) as u32;
    k as f64 / 65536.0 - 0.5
}

// The reading of a number in its phase.
fn add_reading(text: &mut Text, p: &Phase, i: u32)
    ensures { Added text.old (reading_bytes p.now i) text.new }
{
    let spread = p.spread as f64;
    let walked = p.walk as f64 * i as f64 / 8.0;
    let rate = p.gain as f64 - p.loss as f64 + spread * unit(i, 53685) + walked;
    let amplitude = p.amplitude as f64 + spread * unit(i, 43977) - walked;
    let beat_error = p.beat_error as f64 + spread * unit(i, 36025);
    add_double(text, rate);
    add_double(text, amplitude);
    add_double(text, beat_error);
}

// The readings of a phase.
fn add_phase(text: &mut Text, p: &Phase)
    ensures { Added text.old (phase_bytes p.now) text.new }
{
    for i in 0..p.count {
        add_reading(text, p, i);
    }
}

// dim 3, r 10, lambda 2^-9, alpha 0.25, min_weight 6.
fn add_settings(text: &mut Text)
    ensures { Added text.old settings_bytes text.new }
{
    add_word(text, 3);
    add_word(text, 0x4024_0000_0000_0000);
    add_word(text, 0x3f60_0000_0000_0000);
    add_word(text, 0x3fd0_0000_0000_0000);
    add_word(text, 0x4018_0000_0000_0000);
}

// The settings and every phase.
fn sample() -> Text
    ensures { text_of result ≡ sample_bytes }
{
    let mut text = Text::new();
    add_settings(&mut text);
    for phase in &PHASES {
        add_phase(&mut text, phase);
    }
    text
}

// The session at the start of the output, if it has a place for all of it.
pub fn session(output: &mut [u8]) -> Result<usize, TooShort>
    ensures told { write_told result output.new ≡ write_of sample_bytes output.old }
    ensures in_bounds { IfOk result (λ n. n ≤ length output.new) }
{
    sample().write(output)
}
