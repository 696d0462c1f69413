// Little-endian numbers, put at the start of what is lent.
ghost use Rattle.std.specs.Prelude.{◌≡◌, ◌*◌, ◌≤◌, length};
ghost use Rattle.rules.specs.Beyond.{onto};
ghost use Rattle.rules.specs.WrittenFile.{u32s_bytes};

// The bytes of every number, one behind the other.
pub fn put_u32s(numbers: &[u32], out: &mut [u8])
    requires { 4 * length numbers.now ≤ length out.old }
    ensures { out.new ≡ onto (u32s_bytes numbers.now) out.old }
{
    for (k, number) in numbers.iter().enumerate() {
        out[4 * k..4 * k + 4].copy_from_slice(&number.to_le_bytes());
    }
}
