// What *91* and *92* have in common, each at columns of its own: how far behind the first of these columns each field stands, as *91* has them.
use crate::Network;

pub const EAST: usize = Network::EAST - Network::NORTH;

pub const CORRELATION: usize = Network::CORRELATION - Network::NORTH;

pub const ELLIPSOID: usize = Network::ELLIPSOID - Network::NORTH;

pub const SPACER: usize = Network::SECOND_SPACER - Network::NORTH;

pub const SCALED: usize = Network::SCALED - Network::NORTH;
