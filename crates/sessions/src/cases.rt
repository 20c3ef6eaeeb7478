// What the cases are tried on.
use super::pair::Pair;
use super::table::Table;
use transfer::ship::LONGEST;

// The table, ship and station, bytes of which each file is the first ones, and memory for what is handed over.
#[derive(Drop)]
pub struct Cases<'a> {
    pub table: &'a mut Table,
    pub pair: Pair<'a>,
    pub pool: &'a [u8],
    pub out: &'a mut [u8; LONGEST],
}

impl<'a> Cases<'a> {
    // The first so many bytes, or all.
    pub fn first(&self, length: usize) -> &'a [u8] {
        first(self.pool, length)
    }
}

pub fn first(bytes: &[u8], length: usize) -> &[u8] {
    &bytes[..length.min(bytes.len())]
}
