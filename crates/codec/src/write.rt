// Writing a form into a buffer.
ghost use Rattle.std.specs.Prelude.{◌≤◌, IfOk};
ghost use Rattle.codec.specs.Write.{Written};

use super::fixed_vec::FixedVec;
use super::refusal::WriteRefusal;

// Writes a form at the beginning of `out`, and answers its length.
pub(crate) fn write<const CAP: usize>(
    out: &mut [u8],
    form: Option<FixedVec<u8, CAP>>,
) -> Result<usize, WriteRefusal>
    ensures wrote { Written form.entry out.old result out.new }
    ensures fits { IfOk result (λ len. len ≤ CAP) }
{
    let form = form.ok_or(WriteRefusal::NoForm)?;
    if out.len() < form.len() {
        return Err(WriteRefusal::NoRoom);
    }
    out[..form.len()].copy_from_slice(&form);
    Ok(form.len())
}
