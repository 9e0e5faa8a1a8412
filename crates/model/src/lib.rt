// What both streams share: the limits, what is kept of a micro-cluster and of a link, the clock, the answers and the questions.
#![tactic(auto)]

mod answers;
mod body;
mod clock;
mod fading;
mod limits;
mod link;
mod micro;
mod params;
mod periods;
mod point;
mod questions;
mod settings;
mod stream;

pub use answers::{InsertError, NotLive, OpenError, ShapeError, TooShort, number_of};
pub use body::Body;
pub use clock::{Clock, Ticked};
pub use fading::faded;
pub use limits::{LINKS, MICROS};
pub use link::Link;
pub use micro::{DbMicro, DenMicro, Micro, MicroId};
pub use params::{DbParams, DenParams};
pub use periods::{floor, t_gap, tp};
pub use point::padded;
pub use questions::{asked, dim_in_range, insertion_asked};
pub use settings::{DbSettings, DenSettings};
pub use stream::{Clustered, Inserted, Opened, Stream};
