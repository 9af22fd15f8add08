//! The transformations S, R and L on a block in place.

ghost use Rattle.std.specs.Prelude.{◌≡◌, length, map, slice_index};
ghost use Rattle.kuznyechik.specs.Steps.{ℓ, R, R⁻¹, L, L⁻¹, LSX, XS⁻¹L⁻¹};

use crate::field::multiply;
use crate::table::{PI, PI_INVERSE};
use blocks::xor_into;

/// The factor of each byte in l.
const FACTORS: [u8; 16] = [
    148, // a15
    32, // a14
    133, // a13
    16, // a12
    194, // a11
    192, // a10
    1, // a9
    251, // a8
    1, // a7
    192, // a6
    194, // a5
    16, // a4
    133, // a3
    32, // a2
    148, // a1
    1, // a0
];

/// S with Pi' for the table, and its inverse with that of Pi': each byte through the table.
fn substitute(table: &[u8; 256], block: &mut [u8])
    ensures { block.new ≡ map (λ b. slice_index table.now b) block.old }
{
    for b in block.iter_mut() {
        *b = table[*b as usize];
    }
}

/// l: the sum of the products of the factors and the bytes.
fn combine(block: &[u8]) -> u8
    requires { length block.now ≡ 16 }
    ensures { result ≡ ℓ block.now }
{
    let mut sum = 0u8;
    for (c, b) in FACTORS.iter().zip(block) {
        sum ^= multiply(*c, *b);
    }
    sum
}

/// R: each byte moves one place on, and l comes first.
fn shift(block: &mut [u8])
    requires { length block.old ≡ 16 }
    ensures { block.new ≡ R block.old }
{
    let first = combine(block);
    block.rotate_right(1);
    block[0] = first;
}

/// The inverse of R.
fn unshift(block: &mut [u8])
    requires { length block.old ≡ 16 }
    ensures { block.new ≡ R⁻¹ block.old }
{
    block.rotate_left(1);
    block[15] = combine(block);
}

/// L: R sixteen times.
pub(crate) fn mix(block: &mut [u8])
    requires { length block.old ≡ 16 }
    ensures { block.new ≡ L block.old }
{
    // There is no other length. With it known here, the turns compile to moves of fixed size.
    if block.len() != 16 {
        return;
    }
    for _i in 0..16usize {
        shift(block);
    }
}

// A loop of its own: one shared with `mix` would take the step as a closure over `&mut`, with its law.
/// The inverse of L.
fn unmix(block: &mut [u8])
    requires { length block.old ≡ 16 }
    ensures { block.new ≡ L⁻¹ block.old }
{
    // There is no other length. With it known here, the turns compile to moves of fixed size.
    if block.len() != 16 {
        return;
    }
    for _i in 0..16usize {
        unshift(block);
    }
}

/// LSX[key], a round.
pub(crate) fn round(block: &mut [u8], key: &[u8; 16])
    requires { length block.old ≡ 16 }
    ensures { block.new ≡ LSX key.now block.old }
{
    xor_into(block, key);
    substitute(&PI, block);
    mix(block);
}

/// A round undone.
pub(crate) fn unround(block: &mut [u8], key: &[u8; 16])
    requires { length block.old ≡ 16 }
    ensures { block.new ≡ XS⁻¹L⁻¹ key.now block.old }
{
    unmix(block);
    substitute(&PI_INVERSE, block);
    xor_into(block, key);
}
