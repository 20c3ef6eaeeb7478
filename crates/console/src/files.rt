// Whole files for the programs: one that is sent, and one that is handed over.
use std::fs::File;
use std::io::{Read, Write};
use std::{fs, io, process};

// The bytes of a file, but no more than `most` and one: who gets more than `most` knows that the file is longer.
pub fn read_file(rt: &HostRuntime, path: &str, most: usize) -> io::Result<Vec<u8>> {
    let mut bytes = Vec::new(rt.alloc());
    let file = File::open(rt, path)?;
    let one_more = (most as u64).saturating_add(1);
    file.take(one_more).read_to_end(&mut bytes)?;
    Ok(bytes)
}

// Fills a file that was just made, and lets go of it once the bytes are on the disk.
fn fill(mut file: File, bytes: &[u8]) -> io::Result<()> {
    file.write_all(bytes)?;
    file.sync_all()
}

fn fill_and_rename(
    rt: &HostRuntime,
    file: File,
    aside: &str,
    path: &str,
    bytes: &[u8],
) -> io::Result<()> {
    fill(file, bytes)?;
    fs::rename(rt, aside, path)
}

// Writes a file so that it is there whole or not at all: under a name of its own beside it, and then renamed. Where that fails
// nothing stands under the path that did not stand there before, and what was begun is removed.
pub fn write_file(rt: &HostRuntime, path: &str, bytes: &[u8]) -> io::Result<()> {
    let id = process::id(rt.process());
    let aside = format!(in rt.alloc(); "{path}.{id}.part")?;
    let file = File::create_new(rt, aside.as_str())?;
    let result = fill_and_rename(rt, file, aside.as_str(), path, bytes);
    if result.is_err() {
        let _ = fs::remove_file(rt, aside.as_str());
    }
    result
}
