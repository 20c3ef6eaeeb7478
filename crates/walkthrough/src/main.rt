// A small fixed case taken through the link, layer by layer, and printed step by step for somebody who is new to it.
#![tactic(auto)]

mod bytes;
mod evening;
mod frames;
mod inner;
mod outer;
mod show;
mod spoiling;
mod way;

fn main(rt: HostRuntime) -> anyhow::Result<()> {
    rt.println("Katydidwire, step by step")?;
    bytes::bits_section(&rt)?;
    bytes::check_section(&rt)?;
    bytes::pattern_section(&rt)?;
    outer::section(&rt)?;
    inner::section(&rt)?;
    frames::section(&rt)?;
    way::section(&rt)?;
    Ok(())
}
