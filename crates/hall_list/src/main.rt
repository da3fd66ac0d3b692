// The list program: a command stream on standard input, its release list on standard output.
#![tactic(auto)]

use listing::list_from;
use std::io::Write;

// Nothing is printed until the whole list is there.
fn list(rt: &HostRuntime) -> anyhow::Result<()> {
    let text = list_from(rt.alloc(), rt.stdin())?;
    rt.stdout().write_all(&text)?;
    Ok(())
}

fn main(rt: HostRuntime) -> anyhow::Result<()> {
    list(&rt)
}
