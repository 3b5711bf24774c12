// A field: the number held by `width` bits from bit `at` of a list of bytes, most significant
// bit first. Read and put, proved once over the width.
#![tactic(auto)]

ghost use Rattle.std.specs.Prelude.{◌≡◌, ◌*◌, ◌^◌, ◌<◌, length};
ghost use Rattle.bits.specs.Field.{bit_at, field_of, Within, BitPut, Put};

// Bit `i` of the bytes, the most significant bit of byte 0 being bit 0.
#[tactic(auto, unfolding(crate::specs::Field::bit_at))]
fn bit(bytes: &[u8], i: usize) -> u32
    requires { i < 8 * length bytes.now }
    ensures { result ≡ bit_at bytes.now i }
{
    u32::from(bytes[i / 8] >> (7 - i % 8)) % 2
}

// The number held by the `width` bits from bit `at`.
#[tactic(auto, using(crate::proofs::Fields::reading))]
pub fn field(bytes: &[u8], at: usize, width: usize) -> u32
    requires { Within bytes.now at width }
    ensures { result ≡ field_of bytes.now at width }
{
    let mut number: u32 = 0;
    for k in 0..width {
        number = number * 2 + bit(bytes, at + k);
    }
    number
}

// `byte` with its bit of weight 2 ^ k replaced by `b`. There is no test of `b`: a processor would
// guess it wrong at every second bit of a sheet, which would take twice as long to write.
fn with_bit(byte: u8, k: usize, b: u32) -> u8
    requires { (k < 8) × (b < 2) }
    ensures { BitPut byte k b result }
{
    let mask = 1u8 << k;
    byte & !mask | (b as u8) << k
}

// Bit `i` of the bytes becomes `b`.
fn put_bit(bytes: &mut [u8], i: usize, b: u32)
    requires { (i < 8 * length bytes.old) × (b < 2) }
    ensures { Put bytes.old i 1 b bytes.new }
{
    let at = i / 8;
    bytes[at] = with_bit(bytes[at], 7 - i % 8, b);
}

// The `width` bits from bit `at` become `value`, the last bit first.
pub fn put(bytes: &mut [u8], at: usize, width: usize, value: u32)
    requires { Within bytes.old at width × (value < 2 ^ width) }
    ensures { Put bytes.old at width value bytes.new }
{
    let mut rest = value;
    for k in (0..width).rev() {
        put_bit(bytes, at + k, rest % 2);
        rest /= 2;
    }
}
