// The four payloads by the rules, computed anew, with nothing of the library's.

// The part at a place: what of the content is left from there on, at most 214 bytes.
pub fn part(file: u8, place: usize, content: &[u8]) -> [u8; 221] {
    let mut payload = head(1, file, place);
    let body = content.chunks(214).nth(place).unwrap_or(&[]);
    payload[4] = body.len() as u8;
    payload[7..7 + body.len()].copy_from_slice(body);
    payload
}

// The end: the count of parts, and the length in four bytes.
pub fn end(file: u8, parts: usize, length: usize) -> [u8; 221] {
    let mut payload = head(2, file, parts);
    payload[4] = 4;
    payload[7..11].copy_from_slice(&length.to_be_bytes()[4..]);
    payload
}

pub fn ask(file: u8, gap: usize) -> [u8; 221] {
    head(3, file, gap)
}

pub fn all_there(file: u8) -> [u8; 221] {
    head(4, file, 0)
}

// The kind, the file's number, and a number in two bytes.
fn head(kind: u8, file: u8, number: usize) -> [u8; 221] {
    let mut payload = [0u8; 221];
    payload[0] = kind;
    payload[1] = file;
    payload[2..4].copy_from_slice(&number.to_be_bytes()[6..]);
    payload
}
