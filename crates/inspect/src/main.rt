// Reads lines that give batches, packets and images of chips, and prints what each of them comes to, part by part.
#![tactic(auto)]

mod answer;
mod fault;
mod hex;
mod image;
mod line;
mod split;

use answer::{answer_line, refusal_text};
use codec::beds::Beds;
use fault::LineFault;
use image::{image_file, image_text};
use line::read_beds;
use split::Lines;
use std::alloc::AllocError;
use std::io::Read;
use std::{fs, io, str};

// The cells in a file, if it can be read.
fn read_cells(rt: &HostRuntime, name: &[u8]) -> Option<Vec<u8>> {
    let path = str::from_utf8(name).ok()?;
    fs::read(rt, path).ok()
}

// The cells of the image that a line is about, and the number of beds.
fn read_image(rt: &HostRuntime, line: &[u8]) -> Result<(Vec<u8>, Beds), LineFault> {
    let beds = read_beds(line)?;
    let name = image_file(line)?;
    let cells = read_cells(rt, name).ok_or(LineFault::Unread)?;
    Ok((cells, beds))
}

// The answer to a line about an image.
fn answer_image(rt: &HostRuntime, number: usize, line: &[u8]) -> Result<String, AllocError> {
    let heap = rt.alloc();
    match read_image(rt, line) {
        Ok((mut cells, beds)) => image_text(heap, number, cells.as_mut_slice(), beds),
        Err(fault) => refusal_text(heap, number, fault),
    }
}

fn main(rt: HostRuntime) -> io::Result<()> {
    let heap = rt.alloc();
    let mut input = Vec::new(heap);
    rt.stdin().read_to_end(&mut input)?;
    for (i, line) in Lines::new(input.as_slice()).enumerate() {
        let text = match line.first() {
            Some(b'c') => answer_image(&rt, i + 1, line)?,
            _ => answer_line(heap, i + 1, line)?,
        };
        rt.print(text)?;
    }
    Ok(())
}
