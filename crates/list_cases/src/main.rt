// Runs the streams of data/ as the list program does, and holds each list to the one that was worked out
// for it.
#![tactic(auto)]

use listing::list_from;
use std::fs;

// Whether the list of a stream is the one beside it.
fn same(rt: &HostRuntime, name: &str) -> anyhow::Result<bool> {
    let heap = rt.alloc();
    let stream = fs::open(rt, format!(in heap; "{name}.stream")?.as_str())?;
    let expected = fs::read(rt, format!(in heap; "{name}.list")?.as_str())?;
    let text = list_from(heap, stream)?;
    Ok(text == expected)
}

fn compare(rt: &HostRuntime) -> anyhow::Result<()> {
    let index = fs::read_to_string(rt, "index")?;
    let mut count = 0u32;
    for name in index.lines() {
        if same(rt, name)? {
            count = count.saturating_add(1);
        } else {
            println!(rt; "{name}: the list differs")?;
        }
    }
    println!(rt; "{count} streams list as worked out")?;
    Ok(())
}

fn main(rt: HostRuntime) -> anyhow::Result<()> {
    compare(&rt)
}
