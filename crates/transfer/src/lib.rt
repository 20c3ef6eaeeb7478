// Both sides of a file transfer: payloads, the ship that sends, the station that receives into lent memory, leave to hand over.
#![tactic(auto)]

mod memory;
pub mod message;
pub mod ship;
pub mod sides;
pub mod station;
