// Numbers of the input, high byte first; 0 for what the input lacks.
ghost use Rattle.std.specs.Prelude.{◌≤◌, IfOk, MatchOption, OnErr, [], ◌∷◌, length};
ghost use Rattle.std.specs.Io.KnownBytes.{Consumes, IsAtEnd, Keeps};

use std::io;
use std::io::{Read, Write};

// The next byte, or none at the end. Where the read fails, no byte is taken.
pub fn byte<R: Read>(from: &mut R) -> io::Result<Option<u8>>
    ensures ok { IfOk result (λ b. MatchOption b (IsAtEnd (R.remaining from.new))
        (λ x. Consumes (R.remaining from.old) (R.remaining from.new) (x ∷ []))) }
    ensures err { OnErr result (Keeps (R.remaining from.old) (R.remaining from.new)) }
{
    let mut read = [0u8; 1];
    let n = from.read(&mut read)?;
    Ok((n == 1).then_some(read[0]))
}

// As many bytes as there is room for; where the input ends, the rest stays as it is.
pub fn load<R: Read>(from: &mut R, bytes: &mut [u8]) -> io::Result<()> {
    for (place, read) in bytes.iter_mut().zip(from.bytes()) {
        *place = read?;
    }
    Ok(())
}

// The next N bytes, 0 for each that the input lacks. Each is asked for, also after an end: a
// terminal goes on behind one.
fn next<const N: usize, R: Read>(from: &mut R) -> io::Result<[u8; N]> {
    let mut bytes = [0u8; N];
    for place in &mut bytes {
        *place = byte(from)?.unwrap_or(0);
    }
    Ok(bytes)
}

// A number of two bytes.
pub fn short<R: Read>(from: &mut R) -> io::Result<usize> {
    Ok(u16::from_be_bytes(next(from)?).into())
}

// A number of four bytes.
pub fn number<R: Read>(from: &mut R) -> io::Result<u32> {
    Ok(u32::from_be_bytes(next(from)?))
}

// A number of eight bytes.
pub fn long<R: Read>(from: &mut R) -> io::Result<u64> {
    Ok(u64::from_be_bytes(next(from)?))
}

// As many bytes as a sheet can have here.
pub const SHEET: usize = 4000;

// A sheet: its length, cut to the room that there is, and its bytes.
pub fn sheet<'a, R: Read>(from: &mut R, room: &'a mut [u8; SHEET]) -> io::Result<&'a mut [u8]>
    ensures { IfOk result (λ s. length s.now ≤ SHEET) }
{
    let length = short(from)?.min(SHEET);
    let sheet = &mut room[..length];
    load(from, sheet)?;
    Ok(sheet)
}

// A list of numbers of four bytes.
pub fn list<R: Read>(from: &mut R, numbers: &mut [u32]) -> io::Result<()> {
    for place in numbers {
        *place = number(from)?;
    }
    Ok(())
}

// A name, written as it is, and a space.
pub fn name<R: Read, W: Write>(from: &mut R, out: &mut W) -> io::Result<()> {
    for _ in 0..short(from)? {
        let letter: [u8; 1] = next(from)?;
        out.write_all(&letter)?;
    }
    out.write_all(b" ")
}
