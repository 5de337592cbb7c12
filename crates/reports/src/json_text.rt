//! Parts of the text of a JSON line, appended to the bytes written so far.
ghost use Rattle.std.specs.Prelude.{◌≡◌, ◌<◌, ◌++◌, ◌∷◌, [], OnOk, decimal, map};
ghost use Rattle.serde_json.specs.Written.{comma_if, compact_text};
ghost use Rattle.reports.specs.LineData.{integer, point_data, turns_data, letter_of};

use itoa::Buffer;
use ortho_rep::{Point, Turn};
use std::alloc::AllocError;

/// Appends `bytes` to `out`. `AllocError` if there is no memory; `out` is then unchanged.
pub(crate) fn put_bytes(out: &mut Vec<u8>, bytes: &[u8]) -> Result<(), AllocError>
    ensures { OnOk result (out.new.items ≡ out.old.items ++ bytes.now) }
{
    out.extend_from_slice(bytes)
}

/// Appends a comma to `out` if `later`, that is, if an element was written before; otherwise nothing. `AllocError` if
/// there is no memory; `out` is then unchanged.
pub(crate) fn put_comma(out: &mut Vec<u8>, later: bool) -> Result<(), AllocError>
    ensures { OnOk result (out.new.items ≡ out.old.items ++ comma_if later) }
{
    if later {
        out.push(b',')?;
    }
    Ok(())
}

/// Appends a nonnegative number to `out` in decimal, after a comma if `later`. `AllocError` if memory runs out; `out`
/// may then end in a part of the text.
#[inline]
pub(crate) fn put_natural(out: &mut Vec<u8>, later: bool, number: u64) -> Result<(), AllocError>
    ensures { OnOk result (out.new.items ≡ out.old.items ++ (comma_if later ++ decimal number)) }
{
    if number < 10 {
        return put_digit(out, later, number as u8);
    }
    put_digits(out, later, number)
}

/// Appends a nonnegative number of any length to `out` in decimal, after a comma if `later`. `AllocError` if memory
/// runs out; `out` may then end in a part of the text.
fn put_digits(out: &mut Vec<u8>, later: bool, number: u64) -> Result<(), AllocError>
    ensures { OnOk result (out.new.items ≡ out.old.items ++ (comma_if later ++ decimal number)) }
{
    put_comma(out, later)?;
    let mut buffer = Buffer::new();
    out.extend_from_slice(buffer.format(number).as_bytes())
}

/// Appends a nonnegative number, which must have one digit, to `out`, after a comma if `later`. `AllocError` if there
/// is no memory; `out` is then unchanged.
#[inline]
#[tactic(auto, using(std::proofs::lemmas::Fmt::decimal_digit))]
fn put_digit(out: &mut Vec<u8>, later: bool, number: u8) -> Result<(), AllocError>
    requires { number < 10 }
    ensures { OnOk result (out.new.items ≡ out.old.items ++ (comma_if later ++ decimal number)) }
{
    let glyph = b'0' + number;
    if later {
        out.extend_from_slice(&[b',', glyph])
    } else {
        out.extend_from_slice(&[glyph])
    }
}

/// Appends an integer to `out` in decimal, after a comma if `later`. `AllocError` if memory runs out; `out` may then
/// end in a part of the text.
pub(crate) fn put_integer(out: &mut Vec<u8>, later: bool, number: i32) -> Result<(), AllocError>
    ensures { OnOk result (out.new.items ≡ out.old.items ++ (comma_if later ++ compact_text (integer number))) }
{
    if number >= 0 {
        return put_natural(out, later, number as u64);
    }
    put_negative(out, later, number.unsigned_abs())
}

/// Appends a minus sign and `size` in decimal to `out`, after a comma if `later`. `AllocError` if memory runs out;
/// `out` may then end in a part of the text.
fn put_negative(out: &mut Vec<u8>, later: bool, size: u32) -> Result<(), AllocError>
    ensures { OnOk result (out.new.items ≡ out.old.items ++ (comma_if later ++ 45 ∷ decimal size)) }
{
    if later && size < 10 {
        return put_negative_digit(out, size as u8);
    }
    put_comma(out, later)?;
    put_bytes(out, b"-")?;
    put_natural(out, false, u64::from(size))
}

/// Appends a comma, a minus sign and `size`, which must have one digit, to `out`. `AllocError` if there is no memory;
/// `out` is then unchanged.
#[tactic(auto, using(std::proofs::lemmas::Fmt::decimal_digit))]
fn put_negative_digit(out: &mut Vec<u8>, size: u8) -> Result<(), AllocError>
    requires { size < 10 }
    ensures { OnOk result (out.new.items ≡ out.old.items ++ 44 ∷ 45 ∷ decimal size) }
{
    out.extend_from_slice(&[b',', b'-', b'0' + size])
}

/// Appends a point as `[x,y]` to `out`, after a comma if `later`. `AllocError` if memory runs out; `out` may then end
/// in a part of the text.
pub(crate) fn put_point(out: &mut Vec<u8>, later: bool, point: Point) -> Result<(), AllocError>
    ensures { OnOk result (out.new.items ≡ out.old.items ++ (comma_if later ++ compact_text (point_data point))) }
{
    if later && point.x < 10 && point.y < 10 {
        return put_small_point(out, point.x as u8, point.y as u8);
    }
    put_comma(out, later)?;
    put_bytes(out, b"[")?;
    put_natural(out, false, u64::from(point.x))?;
    put_natural(out, true, u64::from(point.y))?;
    put_bytes(out, b"]")
}

/// Appends a comma and a point as `[x,y]` to `out`; `x` and `y` must have one digit each. `AllocError` if there is no
/// memory; `out` is then unchanged.
#[tactic(auto, using(std::proofs::lemmas::Fmt::decimal_digit))]
fn put_small_point(out: &mut Vec<u8>, x: u8, y: u8) -> Result<(), AllocError>
    requires x { x < 10 }
    requires y { y < 10 }
    ensures { OnOk result (out.new.items ≡ out.old.items ++ 44 ∷ 91 ∷ (decimal x ++ 44 ∷ (decimal y ++ 93 ∷ []))) }
{
    out.extend_from_slice(&[b',', b'[', b'0' + x, b',', b'0' + y, b']'])
}

/// Appends the turns of a dart to `out` as a string of letters `L` and `R` in quotation marks, after a comma if
/// `later`. `AllocError` if memory runs out; `out` may then end in a part of the text.
pub(crate) fn put_string(out: &mut Vec<u8>, later: bool, turns: &[Turn]) -> Result<(), AllocError>
    ensures { OnOk result (out.new.items ≡ out.old.items ++ (comma_if later ++ compact_text (turns_data turns.now))) }
{
    if later && turns.is_empty() {
        return put_bytes(out, b",\"\"");
    }
    put_comma(out, later)?;
    put_bytes(out, b"\"")?;
    put_letters(out, turns)?;
    put_bytes(out, b"\"")
}

/// Appends a letter to `out` for each turn, in order, without quotation marks. `AllocError` if memory runs out; `out`
/// may then end in a part of the text.
fn put_letters(out: &mut Vec<u8>, turns: &[Turn]) -> Result<(), AllocError>
    ensures { OnOk result (out.new.items ≡ out.old.items ++ map letter_of turns.now) }
{
    for turn in turns {
        put_bytes(out, &[letter(*turn)])?;
    }
    Ok(())
}

/// The letter of a turn: `L` for left, `R` for right.
fn letter(turn: Turn) -> u8
    ensures { result ≡ letter_of turn }
{
    match turn {
        Turn::Left => b'L',
        Turn::Right => b'R',
    }
}
