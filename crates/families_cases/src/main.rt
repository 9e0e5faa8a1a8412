// The examples of document 01 for `families`, and inputs at the edges of its questions, each under a heading;
// the gate compares the text with the file stdout, which was written by hand from document 01.
#![tactic(auto)]

use words::Output;

// A word more than an input may have, in bytes.
const ROOM: usize = 65544;

// The most points that lie apart.
const APART: usize = 66;

// The bytes of the settings and three points of a word each.
const THREE_POINTS: usize = 64;

// Bits of doubles.
const MINUS_ONE: u64 = 0xbff0_0000_0000_0000;

const NOUGHT: u64 = 0;

const LAMBDA: u64 = 0x3f50_0000_0000_0000;

const HALF: u64 = 0x3fe0_0000_0000_0000;

const THREE_QUARTERS: u64 = 0x3fe8_0000_0000_0000;

const UNDER_ONE: u64 = 0x3fef_f7ce_d916_872b;

const ONE: u64 = 0x3ff0_0000_0000_0000;

const ONE_AND_A_HALF: u64 = 0x3ff8_0000_0000_0000;

const SIXTY_FIVE: u64 = 0x4050_4000_0000_0000;

const NAN: u64 = 0x7ff8_0000_0000_0000;

// The words of the settings, doubles by their bits.
#[derive(Clone, Copy)]
struct Settings {
    dim: u64,
    r: u64,
    lambda: u64,
    alpha: u64,
    min_weight: u64,
}

// "1, 1, 2^-10, 0.5, 1".
const PLAIN: Settings = Settings {
    dim: 1,
    r: ONE,
    lambda: LAMBDA,
    alpha: HALF,
    min_weight: ONE,
};

impl Settings {
    fn words(self) -> [u64; 5] {
        [self.dim, self.r, self.lambda, self.alpha, self.min_weight]
    }
}

// What `families` prints for an input, under its heading. As in `picture_cases`, but for the function and its room.
fn show(heading: &str, input: &[u8]) {
    let mut output = io::buffer();
    let _headed = println!(Output; "{heading}:");
    if let Ok(n) = families_text::families(input, &mut output) {
        let _written = Output.write_all(&output[..n]);
    }
}

// The input of settings and points of a word each, with zeros after them, cut at n bytes.
fn case(heading: &str, settings: Settings, points: &[u64], n: usize) {
    let mut room = [0u8; ROOM];
    let head = settings.words();
    let words = head.iter().chain(points);
    for (place, word) in room.as_chunks_mut::<8>().0.iter_mut().zip(words) {
        *place = word.to_le_bytes();
    }
    if let Some(input) = room.get(..n) {
        show(heading, input);
    }
}

// "Input 1, 1, 2^-10, 0.5, 1 and points 0, 1.5, 0.75", with an alpha, cut at n bytes.
fn example(heading: &str, alpha: u64, n: usize) {
    let points = [NOUGHT, ONE_AND_A_HALF, THREE_QUARTERS];
    case(heading, Settings { alpha, ..PLAIN }, &points, n);
}

// Document 01's examples of `families`.
fn examples() {
    example("alpha 0.5", HALF, THREE_POINTS);
    example("alpha 1", ONE, THREE_POINTS);
    example("alpha 0.999", UNDER_ONE, THREE_POINTS);
    example("two points", HALF, 56);
}

// Settings with zeros after them, cut at n bytes.
fn opening(heading: &str, settings: Settings, n: usize) {
    case(heading, settings, &[], n);
}

// Settings of a dim, cut at n bytes.
fn dim(heading: &str, dim: u64, n: usize) {
    opening(heading, Settings { dim, ..PLAIN }, n);
}

// The lengths around the settings'.
fn shortest() {
    dim("empty", 1, 0);
    dim("39 bytes", 1, 39);
    dim("40 bytes", 1, 40);
    dim("41 bytes", 1, 41);
}

// The longest input, the point 0 again and again, and a longer one.
fn longest() {
    dim("65,536 bytes", 1, 65536);
    dim("65,544 bytes", 1, 65544);
}

// A dim out of range is refused by its own number, whatever follows the settings.
fn out_of_range() {
    dim("dim 0", 0, 40);
    dim("dim 0 and a word", 0, 48);
    dim("dim 16", 16, 40);
    dim("dim 2^64 - 1", 0xffff_ffff_ffff_ffff, 48);
}

// A dim in range wants whole points.
fn in_range() {
    dim("dim 15", 15, 40);
    dim("dim 15 and a point", 15, 160);
    dim("dim 15 and a broken point", 15, 152);
    dim("dim 2 and a broken point", 2, 64);
}

// The other questions of the opening; the input's length is asked about before them.
fn openings() {
    opening(
        "r -1",
        Settings {
            r: MINUS_ONE,
            ..PLAIN
        },
        40,
    );
    opening(
        "r -1 and 41 bytes",
        Settings {
            r: MINUS_ONE,
            ..PLAIN
        },
        41,
    );
    opening(
        "lambda 65",
        Settings {
            lambda: SIXTY_FIVE,
            ..PLAIN
        },
        40,
    );
    opening(
        "alpha 0",
        Settings {
            alpha: NOUGHT,
            ..PLAIN
        },
        40,
    );
    opening(
        "min_weight NaN",
        Settings {
            min_weight: NAN,
            ..PLAIN
        },
        40,
    );
}

// The first `count` of the points 4, 8, 16, .., then the first `again` of them, cut at n bytes.
fn apart(heading: &str, count: u8, again: u8, n: usize) {
    let mut points = [0; APART];
    for (point, i) in points.iter_mut().zip((0..count).chain(0..again)) {
        *point = (1025 + u64::from(i)) * 0x10_0000_0000_0000;
    }
    case(heading, PLAIN, &points, n);
}

// Families that no link joins; a 65th micro-cluster, and a point after it that would be absorbed.
fn many() {
    apart("11 points twice", 11, 11, 216);
    apart("65 points", 65, 0, 560);
    apart("65 points and the first again", 65, 1, 568);
}

fn main() {
    examples();
    shortest();
    longest();
    out_of_range();
    in_range();
    openings();
    many();
}
