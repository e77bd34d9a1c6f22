// The words of a line.
use anyhow::{Context, bail};
use std::alloc::Global;
use std::str::Split;

/// The words of a line that are still to be read.
#[derive(Drop)]
pub struct Words<'a> {
    rest: Split<'a, char>,
}

/// The number that a word is.
pub fn number(word: Option<&str>) -> anyhow::Result<u32> {
    let digits = word.context("a number is missing")?;
    Ok(digits.parse::<u32>()?)
}

impl<'a> Words<'a> {
    pub fn new(line: &'a str) -> Words<'a> {
        Words {
            rest: line.split(' '),
        }
    }

    /// The word that says what a line does; past the last word, nothing.
    // `""` and no `None`: an empty word is as little a call as a missing one.
    pub fn name(&mut self) -> &'a str {
        self.rest.next().unwrap_or("")
    }

    /// The next word, if there is one.
    pub fn word(&mut self) -> Option<&'a str> {
        self.rest.next()
    }

    /// The number that the next word is.
    pub fn number(&mut self) -> anyhow::Result<u32> {
        number(self.word())
    }

    /// The low eight bits of the number that the next word is.
    pub fn byte(&mut self) -> anyhow::Result<u8> {
        Ok((self.number()? & 0xff) as u8)
    }

    /// The bytes that the next word gives in hexadecimal, in upper case. A last digit that stands alone is left out.
    pub fn bytes(&mut self, heap: Global) -> anyhow::Result<Vec<u8>> {
        let digits = self
            .rest
            .next()
            .context("the bytes are missing")?
            .as_bytes();
        if !digits.iter().all(|digit| digit.is_ascii_digit() || (b'A'..=b'F').contains(digit)) {
            bail!("no hexadecimal digit");
        }
        Ok(hex::decode(heap, &digits[..digits.len() / 2 * 2])?)
    }
}
