// Makes calls of one memory and one decision service, and prints what each answers.
#![tactic(auto)]

mod bench;
mod calls;
mod line;

use bench::Bench;
use std::io::{BufRead, BufReader};

fn main(rt: HostRuntime) -> anyhow::Result<()> {
    let heap = rt.alloc();
    let mut bench = Bench::new(heap)?;
    for line in BufReader::new(heap, rt.stdin())?.lines(heap) {
        let text = line?;
        rt.print(bench.answer(heap, text.as_str())?)?;
    }
    Ok(())
}
