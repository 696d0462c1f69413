// Little-endian numbers anywhere in a slice; a byte past its end reads as 0.
ghost use Rattle.std.specs.Prelude.{ℕ, ◌≡◌, ◌+◌, ◌*◌, ◌^◌, ◌<◌, length, get_or};
ghost use Rattle.rules.specs.JobFile.{byte_at, u16_at, u32_at, u32s_at};

// So many bytes from an index on. Where the file has all of them, one test is enough.
fn bytes_at<const N: usize>(file: &[u8], at: usize) -> [u8; N]
    ensures { (k : ℕ) → k < N → get_or result k 0 ≡ byte_at file.now (at + k) }
{
    let rest = &file[at.min(file.len())..];
    if let Some(bytes) = rest.first_chunk() {
        return *bytes;
    }
    let mut bytes = [0; N];
    bytes[..rest.len()].copy_from_slice(rest);
    bytes
}

pub fn u16_at(file: &[u8], at: usize) -> u16
    ensures { result ≡ u16_at file.now at }
{
    u16::from_le_bytes(bytes_at(file, at))
}

pub fn u32_at(file: &[u8], at: usize) -> u32
    ensures { result ≡ u32_at file.now at }
{
    u32::from_le_bytes(bytes_at(file, at))
}

// Numbers of which the file has all bytes.
fn read_inside(bytes: &[u8], numbers: &mut [u32])
    requires { length bytes.now ≡ 4 * length numbers.old }
    ensures { numbers.new ≡ u32s_at bytes.now 0 (length numbers.old) }
{
    let (chunks, _) = bytes.as_chunks();
    for (k, number) in numbers.iter_mut().enumerate() {
        *number = u32::from_le_bytes(chunks[k]);
    }
}

// Numbers near the end of the file, and past it.
fn read_past_end(file: &[u8], at: usize, numbers: &mut [u32])
    requires { at + 4 * length numbers.old < 2 ^ 64 }
    ensures { numbers.new ≡ u32s_at file.now at (length numbers.old) }
{
    for (k, number) in numbers.iter_mut().enumerate() {
        *number = u32_at(file, at + 4 * k);
    }
}

// As many numbers as there is room for, one behind the other. Where the file has all of them, one test is enough.
pub fn read_u32s(file: &[u8], at: usize, numbers: &mut [u32])
    requires { at + 4 * length numbers.old < 2 ^ 64 }
    ensures { numbers.new ≡ u32s_at file.now at (length numbers.old) }
{
    match file.get(at..at + 4 * numbers.len()) {
        Some(bytes) => read_inside(bytes, numbers),
        None => read_past_end(file, at, numbers),
    }
}
