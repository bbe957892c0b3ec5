//! Cases of remote look-ups, worked out by hand.

mod cases;
mod fit;
mod given;
mod limits;
