// What a grid shows upwards: the figures of its lines, in tenths.
ghost use Rattle.std.specs.Prelude.{◌≡◌};
ghost use Rattle.picture_grid.specs.Upward.{low_of, step_of, title_of};

#[derive(Clone, Copy, Debug, PartialEq, Eq)]
pub enum Upward {
    BeatError,
    Amplitude,
}

impl Upward {
    // The lowest line's.
    pub fn low(self) -> u32
        ensures { result ≡ low_of self }
    {
        match self {
            Self::BeatError => 0,
            Self::Amplitude => 1500,
        }
    }

    // From a line to the next.
    pub fn step(self) -> u32
        ensures { result ≡ step_of self }
    {
        match self {
            Self::BeatError => 2,
            Self::Amplitude => 100,
        }
    }

    // The line above the grid.
    pub(crate) fn title(self) -> &'static [u8]
        ensures { result.now ≡ title_of self }
    {
        match self {
            Self::BeatError => b"\nbeat error (ms)\n",
            Self::Amplitude => b"\namplitude (deg)\n",
        }
    }
}
