// Pairs of hexadecimal digits, and the bytes that they stand for.
ghost use Rattle.std.specs.Prelude.{◌≡◌, ◌+◌, ◌<◌, length, drop, IfSome, IfOk, vec_items, OnOk};
ghost use Rattle.inspect.specs.Fault.{Reads};
ghost use Rattle.inspect.specs.Hex.{digit_of, digit_at, pair_at, hex_at};

use super::fault::{LineError, LineFault};
use std::alloc::Global;

fn digit_value(character: u8) -> Option<u8>
    ensures value { result ≡ digit_of character }
    ensures below { IfSome result (λ d. d < 16) }
{
    char::from(character).to_digit(16).map(|digit| digit as u8)
}

// The digit at `at`, where a pair has its first or its second.
fn read_digit(line: &[u8], at: usize) -> Result<u8, LineFault>
    ensures value { result ≡ digit_at at (drop at line.now) }
    ensures within { IfOk result (λ d. (d < 16) × (at < length line.now)) }
{
    match line.get(at) {
        None | Some(b' ') => Err(LineFault::HalfPair(at)),
        Some(character) => digit_value(*character).ok_or(LineFault::NotHex(at)),
    }
}

// The byte that the pair at `at` stands for.
fn read_pair(line: &[u8], at: usize) -> Result<u8, LineFault>
    ensures value { result ≡ pair_at at (drop at line.now) }
    ensures within { OnOk result (at + 1 < length line.now) }
{
    let high = read_digit(line, at)?;
    let low = read_digit(line, at + 1)?;
    Ok(high * 16 + low)
}

/// The bytes that the pairs of digits from `start` on stand for. Spaces may stand before, between and after the pairs.
#[tactic(auto, using(crate::proofs::HexSteps::space_step, crate::proofs::HexSteps::pair_step))]
pub fn read_hex(heap: Global, line: &[u8], start: usize) -> Result<Vec<u8>, LineError>
    ensures { Reads vec_items result (hex_at start (drop start line.now)) }
{
    let mut bytes = Vec::new(heap);
    let mut at = start;
    // A pair takes two characters and a space takes one, so no iterator over the line steps as this offset does.
    while let Some(character) = line.get(at) {
        if *character == b' ' {
            at += 1;
        } else {
            bytes.push(read_pair(line, at)?)?;
            at += 2;
        }
    }
    Ok(bytes)
}
