// Integers and bools read as numbers: first a natural number and a bit, then an i32 as its bits and back.
// Each is a call or two of the library, under the name that the definitions have for it.
ghost use Rattle.std.specs.Prelude.{◌≡◌, ◌<◌};
ghost use Rattle.settings.specs.Numbers.{bit, bits_of, of_bits, to_nat};

// The number that an integer is; 0 below 0.
pub fn natural(z: i32) -> u32
    ensures { result ≡ to_nat z }
{
    z.max(0).cast_unsigned()
}

pub fn bit(b: bool) -> u64
    ensures { (result ≡ bit b) × (result < 2) }
{
    u64::from(b)
}

// Two's complement: the bits of an integer, and the integer of bits.
pub fn to_bits(z: i32) -> u32
    ensures { result ≡ bits_of z }
{
    z.cast_unsigned()
}

pub fn from_bits(n: u32) -> i32
    ensures { result ≡ of_bits n }
{
    n.cast_signed()
}
