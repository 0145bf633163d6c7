// Lists of numbers, copied and made narrower.
ghost use Rattle.std.specs.Prelude.{◌≤◌, length};

// The first numbers of a list go to another, as many as there is room for.
pub fn copied(numbers: &[u16], other: &mut [u16]) -> usize
    ensures { result ≤ length other.new }
{
    let n = numbers.len().min(other.len());
    other[..n].copy_from_slice(&numbers[..n]);
    n
}

// The first numbers of a list as bytes, as many as there is room for.
pub fn as_bytes(numbers: &[u16], bytes: &mut [u8]) -> usize
    ensures { result ≤ length bytes.new }
{
    for (byte, number) in bytes.iter_mut().zip(numbers) {
        *byte = (*number % 256) as u8;
    }
    numbers.len().min(bytes.len())
}
