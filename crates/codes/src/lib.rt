// Codes and the bytes that hold them: what a column's width settles, cutting a code into bytes and
// joining bytes into a code. Every other crate that looks at a slice goes through here.

#![tactic(auto)]

ghost use Rattle.std.specs.Prelude.{◌≡◌, ◌<◌, ◌≤◌, ◌^◌, length};
ghost use Rattle.limits.specs.Limits.{widest};
ghost use Rattle.codes.specs.Width.{unfit_width, slices_of, pad_of, too_large};
ghost use Rattle.codes.specs.Bytes.{byte_of, joined};

use limits::WIDEST;

// Whether a width fits no column.
pub fn unfit_width(width: u8) -> bool
    ensures { result ≡ unfit_width width }
{
    if width == 0 {
        return true;
    }
    WIDEST < width
}

// How many slices a column of this width has.
pub fn slices_of(width: u8) -> usize
    ensures { result ≡ slices_of width }
{
    (usize::from(width) + 7) / 8
}

// The number by which a stored number exceeds its code: 2 to the power of the pad.
pub fn unit_of(width: u8) -> u64
    ensures { result ≡ 2 ^ pad_of width }
{
    let pad = 8 * slices_of(width) - usize::from(width);
    1 << pad
}

// Whether a code, or a literal, is too large for a column of this width.
pub fn too_large(width: u8, code: u64) -> bool
    requires { width ≤ widest }
    ensures { result ≡ too_large width code }
{
    let limit = 1 << width;
    !(code < limit)
}

// The byte of a code in a slice, counted from 0: for the writer, and for literals.
pub fn byte_of(width: u8, code: u64, slice: usize) -> u8
    requires { (width ≤ widest) × (code < 2 ^ width) × (slice < slices_of width) }
    ensures { result ≡ byte_of width code slice }
{
    let stored = code * unit_of(width);
    let after = slices_of(width) - 1 - slice;
    ((stored >> (8 * after)) % 256) as u8
}

// The code of a row's bytes, slice 1 first. Pad bits are ignored.
pub fn join(width: u8, bytes: &[u8]) -> u64
    requires { (width ≤ widest) × (length bytes.now ≡ slices_of width) }
    ensures { result ≡ joined width bytes.now }
{
    let mut number: u64 = 0;
    for byte in bytes {
        number = number * 256 + u64::from(*byte);
    }
    number / unit_of(width)
}
