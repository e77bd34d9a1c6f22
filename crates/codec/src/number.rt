// Numbers as bytes: unsigned LEB128, in the shortest form and at most three bytes.
//
// | byte  | top bit             | low seven bits        |
// |-------|---------------------|-----------------------|
// | first | set if more follow  | value % 128           |
// | next  | set if more follow  | value / 128 % 128     |
// | third | clear               | value / 16384         |
ghost use Rattle.std.specs.Prelude.{◌≡◌, ℕ, ◌+◌, ◌-◌, ◌*◌, ◌<◌, ◌≤◌, ◌++◌, length, IfOk, Some};
ghost use Rattle.codec.specs.Limits.{number_end, number_bytes};
ghost use Rattle.codec.specs.Number.{groups_at, number_at, form};
ghost use Rattle.codec.specs.Ranged.{ranged_at};
ghost use Rattle.codec.specs.declared.number.NumberFault.{NumberFault};
ghost use Rattle.codec.specs.Report.{number_cause, number_report};
ghost use Rattle.codec.specs.Words.{number_words};
ghost use Rattle.codec.specs.Write.{HasBytes, Wrote};

use super::fixed_vec::FixedVec;
use super::limits::{NUMBER_BYTES, NUMBER_END};
use super::refusal::WriteRefusal;
use super::report::{Cause, Layer, Report};
use super::write::write;
use std::fmt;
use std::ops::Range;

/// Why no number could be read.
#[derive(Clone, Copy)]
pub enum NumberCause {
    /// The bytes end inside the number, or where it is due.
    Ends,
    /// There is a shorter form, or the last byte that a number may have announces another.
    NotShortest,
}

/// A fault in a number, with the offset of its first byte.
#[derive(Clone, Copy)]
pub struct NumberFault {
    pub cause: NumberCause,
    pub place: usize,
}

// By hand, here and for every fault: a derived conversion would not say what it gives.
impl From<NumberCause> for Cause {
    ghost from_gives = { λ x y. y ≡ number_cause x };

    fn from(cause: NumberCause) -> Cause {
        match cause {
            NumberCause::Ends => Cause::Ends,
            NumberCause::NotShortest => Cause::NotShortest,
        }
    }
}

impl NumberFault {
    /// The cause, the place and the layer.
    // A method and no `From`, here and for every fault: `fault.report()` says what it gives.
    pub fn report(self) -> Report
        ensures { result ≡ number_report self }
    {
        Report {
            cause: Cause::from(self.cause),
            place: self.place,
            layer: Layer::Number,
        }
    }
}

impl fmt::Display for NumberCause {
    ghost output = { λ c. Some (number_words c) };

    fn fmt<W: fmt::Write>(&self, f: &mut fmt::Formatter<W>) -> fmt::Result {
        f.write_str(match self {
            NumberCause::Ends => "the bytes end before this number does",
            NumberCause::NotShortest =>
                "this number has a shorter form, or goes on past three bytes",
        })
    }
}

impl fmt::Display for NumberFault {
    ghost output = { λ f. Some (number_words f.cause) };

    fn fmt<W: fmt::Write>(&self, f: &mut fmt::Formatter<W>) -> fmt::Result {
        self.cause.fmt(f)
    }
}

// What the groups of seven bits from `at` on come to, and the offset after them.
#[tactic(auto, using(crate::proofs::Numbers::read_ends, crate::proofs::Numbers::read_long, crate::proofs::Numbers::read_last))]
fn read_groups(bytes: &[u8], at: usize) -> Result<(u32, usize), NumberCause>
    ensures value { result ≡ groups_at bytes.now 0 number_bytes at }
    ensures within { IfOk result (λ p. (at < p.1) × (p.1 ≤ length bytes.now) × (p.0 < number_end)) }
{
    let mut value: u32 = 0;
    let mut scale: u32 = 1;
    let mut next = at;
    // A fixed number of turns, and no iterator over what is left of the bytes: the compiler writes the turns out one by one.
    for i in 0..NUMBER_BYTES {
        let Some(&byte) = bytes.get(next) else {
            return Err(NumberCause::Ends);
        };
        next += 1;
        if byte < 128 {
            if byte == 0 && i > 0 {
                return Err(NumberCause::NotShortest);
            }
            return Ok((value + u32::from(byte) * scale, next));
        }
        value += u32::from(byte - 128) * scale;
        scale *= 128;
    }
    Err(NumberCause::NotShortest)
}

/// The number that begins at `at`, and the offset after it.
// Readers take an offset and give the next one: the places in faults are offsets into all the bytes.
#[tactic(auto, unfolding(crate::specs::Number::number_at))]
pub fn read_number(bytes: &[u8], at: usize) -> Result<(u32, usize), NumberFault>
    ensures value { result ≡ number_at bytes.now at }
    ensures within { IfOk result (λ p. (at < p.1) × (p.1 ≤ length bytes.now) × (p.0 < number_end)) }
{
    read_groups(bytes, at).map_err(|cause| NumberFault { cause, place: at })
}

// The number at `at` and the offset after it, if the number is in the range; else the fault of whoever reads it.
#[tactic(auto, unfolding(crate::specs::Ranged::ranged_at))]
pub(crate) fn read_ranged<F: From<NumberFault> + Copy>(
    bytes: &[u8],
    at: usize,
    range: Range<u32>,
    out_of_range: F,
) -> Result<(u32, usize), F>
    ensures value { (number : NumberFault → F) → ((x : NumberFault) (y : F) → F.from_gives x y → y ≡ number x)
        → result ≡ ranged_at number (λ _. out_of_range) bytes.now at range.start range.end }
    ensures within { IfOk result (λ p. (range.start ≤ p.0) × (p.0 < range.end) × (at < p.1) × (p.1 ≤ length bytes.now)) }
{
    let (value, next) = read_number(bytes, at)?;
    if range.contains(&value) {
        Ok((value, next))
    } else {
        Err(out_of_range)
    }
}

impl<const CAP: usize> FixedVec<u8, CAP> {
    // The form of a number, at the end.
    pub(crate) fn push_number(&mut self, value: u32)
        requires below { value < number_end }
        requires room { length self.old.items + length (form value) ≤ CAP }
        ensures { self.new.items ≡ self.old.items ++ form value }
    {
        let mut rest = value;
        // A number has no iterator over its groups of seven bits, so what is left of it is counted down.
        while rest >= 128 {
            self.push((rest % 128 + 128) as u8);
            rest /= 128;
        }
        self.push(rest as u8);
    }
}

// The form of a number, if it has one.
#[tactic(auto, using(crate::proofs::Numbers::form_short))]
fn number_form(value: u32) -> Option<FixedVec<u8, NUMBER_BYTES>>
    ensures { HasBytes (value < number_end) (form value) result }
{
    if value >= NUMBER_END {
        return None;
    }
    let mut form = FixedVec::new();
    form.push_number(value);
    Some(form)
}

/// Writes the form of `value` at the beginning of `out`, and answers its length.
pub fn write_number(out: &mut [u8], value: u32) -> Result<usize, WriteRefusal>
    ensures { Wrote (value < number_end) (form value) out.old result out.new }
{
    write(out, number_form(value))
}
