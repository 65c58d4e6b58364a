//! How bad a line is.
use kx_bounded::Bounded;

/// How many frames of a hundred are lost, 0 to 50.
pub type Losses = Bounded<0, 50>;

/// How many further frames go between a frame and its copy, 0 to 8.
pub type Holding = Bounded<0, 8>;
