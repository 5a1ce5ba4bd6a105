// Numbers in bytes, high byte first, over the width.
#![tactic(auto)]

ghost use Rattle.std.specs.Prelude.{◌≡◌, ◌%◌};
ghost use Rattle.slices.specs.Writers.{Puts};
ghost use Rattle.big_endian.specs.BigEndian.{big_endian};

use refusals::Refusal;

// The lowest byte of n.
fn lowest(n: u64) -> u8
    ensures { result ≡ n % 256 }
{
    (n % 256) as u8
}

// Writes n in width bytes into out from its place at, the last byte first, if there is room for all.
pub fn put(out: &mut [u8], at: usize, width: usize, n: u64) -> Result<usize, Refusal>
    ensures { Puts at (big_endian width n) out.old out.new result }
{
    if out.len() < at || out.len() - at < width {
        return Err(Refusal::Short);
    }
    let mut rest = n;
    for i in (at..at + width).rev() {
        out[i] = lowest(rest);
        rest /= 256;
    }
    Ok(at + width)
}
