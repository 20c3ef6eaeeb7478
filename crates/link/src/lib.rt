// The whole link in one piece: the radio and the ship, the station, the main promise over bits and the table of cases.
#![tactic(auto)]

mod ends;
mod promises;

pub use ends::TheLink;
pub use promises::{rows_stand, whole_stands};
pub use transfer::station::{Ground as TheGround, station_opens};
