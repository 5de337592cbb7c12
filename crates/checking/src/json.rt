//! Parts of a JSON value (fields, numbers, strings and lists), and the reasons why a line describes no drawing.
ghost use Rattle.std.specs.Prelude.{◌≡◌, ◌≢◌, ◌≤◌, ℕ, ℤ, List, IfOk, IfErr, Some, None, map};
ghost use Rattle.checking.specs.declared.json.LineFault.TheVariants.{Memory, Malformed, Points, Number};
ghost use Rattle.serde_json.specs.Data.{Data, Items, array, string};
ghost use Rattle.serde_json.specs.Errors.{IsMemory};
ghost use Rattle.serde_json.specs.Find.{get};
ghost use Rattle.serde_json.specs.View.{view, items_of};
ghost use Rattle.checking.specs.Values.{IsTextOf, natural, integer_of, IsOf32Bits};

use serde_json::{Error, Value};
use std::alloc::{AllocError, AllocFailed, Global};

/// The reason why no drawing was read from a line.
#[derive(Clone, Copy, Debug, PartialEq, Eq)]
pub(crate) enum LineFault {
    /// The line is not a JSON value.
    Malformed,
    /// The value has no field `points` with lists of points in `vertices` and `corners`.
    Points,
    /// A number is not an integer in the range of its field.
    ///
    /// The ranges are 0 to 4,294,967,295 for coordinates and bends, 0 to 65,535 for a face, 0 to 255
    /// for angles, and 32 bits with sign for prices.
    Number,
    /// `angles` is not a list.
    Angles,
    /// `turns` is not a list of strings of the letters L and R.
    Turns,
    /// `prices` lacks a list `vertices` or a list `faces`.
    Prices,
    /// Memory ran out.
    Memory,
}

impl From<AllocError> for LineFault {
    ghost from_gives = { λ _ fault. fault ≡ Memory };

    /// Returns `Memory`: an allocation failed.
    fn from(_error: AllocError) -> LineFault {
        LineFault::Memory
    }
}

impl<T: Drop> From<AllocFailed<T>> for LineFault {
    ghost from_gives = { λ _ fault. fault ≡ Memory };

    /// Returns `Memory`, and drops the element for which there was no memory.
    fn from(_refused: AllocFailed<T>) -> LineFault {
        LineFault::Memory
    }
}

/// The JSON value of a line. `Malformed` if the bytes of the line are not one JSON text in UTF-8, or if it nests values
/// more than 127 deep or has a number that is too large for a float. `Memory` if memory runs out.
///
/// # Errors
///
/// `Memory` if memory runs out. Otherwise `Malformed`: the line is not JSON text in UTF-8, or is too deep or has a
/// number too large, as above.
pub(crate) fn value_in(alloc: Global, line: &[u8]) -> Result<Value, LineFault>
    ensures ok { IfOk result (λ value. IsTextOf line.now (view value)) }
    ensures none { IfErr result (λ fault. fault ≢ Memory → (value : Data) → IsTextOf line.now value → ⊥) }
    ensures fault { IfErr result (λ fault. fault ≢ Memory → fault ≡ Malformed) }
{
    match Value::from_slice(alloc, line) {
        Ok(value) => Ok(value),
        Err(error) => Err(fault_of(&error)),
    }
}

/// The fault of a line for which JSON parsing returned `error`: `Memory` if the error is that memory ran out, otherwise
/// `Malformed`.
fn fault_of(error: &Error) -> LineFault
    ensures real { result ≢ Memory → ¬ IsMemory error.now }
    ensures kind { result ≢ Memory → result ≡ Malformed }
{
    if error.is_memory() {
        LineFault::Memory
    } else {
        LineFault::Malformed
    }
}

/// The field `name` of a JSON value; `Points`, whatever the name, if the value has no such field or is no object.
///
/// # Errors
///
/// `Points`: it has none.
pub(crate) fn needed_field_in<'v>(value: &'v Value, name: &str) -> Result<&'v Value, LineFault>
    ensures ok { IfOk result (λ field. get name.now (view value.now) ≡ Some (view field.now)) }
    ensures none { IfErr result (λ _. get name.now (view value.now) ≡ None) }
    ensures fault { IfErr result (λ fault. fault ≡ Points) }
{
    value.get(name).ok_or(LineFault::Points)
}

/// The elements of a JSON array, in order; the error `otherwise` if the value is no array.
pub(crate) fn list_in(value: &Value, otherwise: LineFault) -> Result<&[Value], LineFault>
    ensures ok { IfOk result (λ values. view value.now ≡ array (items_of (map view values.now))) }
    ensures none { IfErr result (λ _. (items : Items) → view value.now ≢ array items) }
    ensures fault { IfErr result (λ fault. fault ≡ otherwise) }
{
    match value.as_array() {
        Some(values) => Ok(values.as_slice()),
        None => Err(otherwise),
    }
}

/// The integer that a JSON value is; `Number` if it is no integer from 0 to `most`.
pub(crate) fn number_in(value: &Value, most: u64) -> Result<u64, LineFault>
    ensures ok { IfOk result (λ n. view value.now ≡ natural n) }
    ensures within { IfOk result (λ n. n ≤ most) }
    ensures none { IfErr result (λ _. (n : ℕ) → n ≤ most → view value.now ≢ natural n) }
    ensures fault { IfErr result (λ fault. fault ≡ Number) }
{
    match value.as_u64() {
        Some(number) if number <= most => Ok(number),
        _ => Err(LineFault::Number),
    }
}

/// The integer that a JSON value is; `Number` if it is no signed integer of 32 bits.
pub(crate) fn integer_in(value: &Value) -> Result<i32, LineFault>
    ensures ok { IfOk result (λ z. integer_of (view value.now) ≡ Some z) }
    ensures within { IfOk result IsOf32Bits }
    ensures none { IfErr result (λ _. (z : ℤ) → IsOf32Bits z → integer_of (view value.now) ≢ Some z) }
    ensures fault { IfErr result (λ fault. fault ≡ Number) }
{
    match value.as_i64() {
        Some(number) if -2_147_483_648 <= number && number <= 2_147_483_647 => Ok(number as i32),
        _ => Err(LineFault::Number),
    }
}

/// The text of a JSON string; the error `otherwise` if the value is no string.
pub(crate) fn text_in(value: &Value, otherwise: LineFault) -> Result<&str, LineFault>
    ensures ok { IfOk result (λ text. view value.now ≡ string text.now) }
    ensures none { IfErr result (λ _. (text : List ℕ) → view value.now ≢ string text) }
    ensures fault { IfErr result (λ fault. fault ≡ otherwise) }
{
    value.as_str().ok_or(otherwise)
}
