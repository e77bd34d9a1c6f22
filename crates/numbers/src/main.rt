// Writes each number of its input in LEB128, to be compared with what another program writes.
#![tactic(auto)]

use anyhow::bail;
use codec::limits::NUMBER_BYTES;
use codec::number::{read_number, write_number};
use std::alloc::Global;
use std::fmt::Write;

// The answer to one line: the number and its bytes.
fn answer(heap: Global, line: &str) -> anyhow::Result<String> {
    let number = line.parse::<u32>()?;
    // A buffer and the length that was written, since `write_number` writes into what is lent.
    let mut out = [0; NUMBER_BYTES];
    let Ok(len) = write_number(&mut out, number) else {
        return Ok(format!(in heap; "{number} has no form")?);
    };
    let form = &out[..len];
    let mut text = format!(in heap; "{number}")?;
    for byte in form {
        write!(text, " {byte:02X}")?;
    }
    match read_number(form, 0) {
        Ok((same, _)) if same == number => Ok(text),
        _ => bail!("the number was not read back"),
    }
}

fn main(rt: HostRuntime) -> anyhow::Result<()> {
    for line in rt.lines(rt.alloc()) {
        let text = line?;
        println!(rt; "{}", answer(rt.alloc(), text.as_str())?)?;
    }
    Ok(())
}
