//! Prints whether `zh-cmn-Hans` and `cmn-hans` are equivalent by the registry in the file `registry.txt`.
#![tactic(auto)]

use bcp47::{Registry, Tag};

fn main(rt: HostRuntime) -> anyhow::Result<()> {
    let registry = Registry::from_bytes(rt.alloc(), &std::fs::read(&rt, "registry.txt")?)?;
    let first = Tag::read(rt.alloc(), b"zh-cmn-Hans")?;
    let second = Tag::read(rt.alloc(), b"cmn-hans")?;
    let same = registry.equivalent(rt.alloc(), &first, &second)?;
    println!(rt; "{first} and {second}: {same}")?;
    Ok(())
}
