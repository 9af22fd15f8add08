//! Products of bytes in the field.

ghost use Rattle.std.specs.Prelude.{◌≡◌};
ghost use Rattle.kuznyechik.specs.Field.{product};

/// The product: `power` is the byte times x, x squared and so on, taken where the factor has a bit.
pub(crate) fn multiply(factor: u8, byte: u8) -> u8
    ensures { result ≡ product factor byte }
{
    let mut sum = 0u8;
    let mut bits = factor;
    let mut power = byte;
    for _i in 0..8usize {
        sum ^= bits % 2 * power;
        power = (power % 128 * 2) ^ (power / 128 * 195);
        bits /= 2;
    }
    sum
}
