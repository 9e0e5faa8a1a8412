// Bytes in a lent slice, or nothing where it has no place for all of them.
ghost use Rattle.std.specs.Prelude.{◌≡◌, ◌≤◌, length, IfOk};
ghost use Rattle.text.specs.Lent.{write_told, write_of};

use model::TooShort;

// At the start of the output, if it has a place for all of them: how many they are.
pub fn write(bytes: &[u8], output: &mut [u8]) -> Result<usize, TooShort>
    ensures told { write_told result output.new ≡ write_of bytes.now output.old }
    ensures in_bounds { IfOk result (λ n. n ≤ length output.new) }
{
    if output.len() < bytes.len() {
        return Err(TooShort);
    }
    output[..bytes.len()].copy_from_slice(bytes);
    Ok(bytes.len())
}
