//! What a line claims of its points. A claim that is not made is `None`.
ghost use Rattle.std.specs.Prelude.{◌≡◌, ◌≢◌, ◌^◌, ◌<◌, ◌≤◌, ℕ, ℤ, List, IfOk, IfErr, IfNone, IfSome, All, MatchOption, None, Some, option_map, codes, map};
ghost use Rattle.serde_json.specs.Find.{get};
ghost use Rattle.serde_json.specs.View.{view};
ghost use Rattle.ortho_rep.specs.declared.turn_strings.Turn.{Turn};
ghost use Rattle.ortho_rep.specs.Prices.{PricesModel};
ghost use Rattle.ortho_rep.specs.Storage.{lists_in};
ghost use Rattle.checking.specs.Values.{natural, array_of, letter_of, turns_data, IsOf32Bits, AreOf32Bits, AreIntegers, HasIntegers, HasPriceLists, SaysPrices};
ghost use Rattle.checking.specs.Wrong.{IsWrongField, IsWrongAngles, IsWrongTurns, IsWrongPriceList, IsWrongPrices, IsWrongPriceValue};
ghost use Rattle.checking.specs.declared.json.LineFault.TheVariants.{Number, Turns, Memory};

use crate::json::{LineFault, integer_in, list_in, number_in, text_in};
use ortho_rep::{Prices, Turn};
use serde_json::Value;
use std::alloc::Global;

/// The number of bends that the field `bends` of a JSON value claims; `None` if the value has no such field or is no
/// object. `Number` if the field is no integer from 0 to 4,294,967,295.
///
/// # Errors
///
/// `Number`: the field is no integer from 0 to 4,294,967,295.
pub(crate) fn bends_in(value: &Value) -> Result<Option<u32>, LineFault>
    ensures ok { IfOk result (λ said. get (codes "bends") (view value.now) ≡ option_map natural said) }
    ensures none { IfErr result (λ _. (n : ℕ) → n < 2 ^ 32 → get (codes "bends") (view value.now) ≢ Some (natural n)) }
    ensures made { IfErr result (λ _. get (codes "bends") (view value.now) ≢ None) }
    ensures fault { IfErr result (λ fault. fault ≡ Number) }
{
    match value.get("bends") {
        Some(field) => Ok(Some(number_in(field, 4_294_967_295)? as u32)),
        None => Ok(None),
    }
}

/// The index of the outer face that the field `outer` of a JSON value claims; `None` if the value has no such field or
/// is no object. `Number` if the field is no integer from 0 to 65,535.
///
/// # Errors
///
/// `Number`: the field is no integer from 0 to 65,535.
pub(crate) fn outer_in(value: &Value) -> Result<Option<u16>, LineFault>
    ensures ok { IfOk result (λ said. get (codes "outer") (view value.now) ≡ option_map natural said) }
    ensures none { IfErr result (λ _. (n : ℕ) → n < 2 ^ 16 → get (codes "outer") (view value.now) ≢ Some (natural n)) }
    ensures made { IfErr result (λ _. get (codes "outer") (view value.now) ≢ None) }
    ensures fault { IfErr result (λ fault. fault ≡ Number) }
{
    match value.get("outer") {
        Some(field) => Ok(Some(number_in(field, 65_535)? as u16)),
        None => Ok(None),
    }
}

/// The angles that the field `angles` of a JSON value claims, in order; `None` if the value has no such field or is no
/// object. `Angles` if the field is no array, `Number` if an element is no integer from 0 to 255, `Memory` if memory
/// runs out.
///
/// # Errors
///
/// `Memory` if memory runs out. Otherwise `Angles` if the field is no list, and `Number` if one of its elements is no
/// integer from 0 to 255.
pub(crate) fn angles_in(alloc: Global, value: &Value) -> Result<Option<Vec<u8>>, LineFault>
    ensures ok { IfOk result (λ said. get (codes "angles") (view value.now)
        ≡ option_map (λ angles. array_of natural angles.items) said) }
    ensures none { IfErr result (λ fault. fault ≢ Memory → (angles : List ℕ) → All (λ angle. angle ≤ 255) angles
        → get (codes "angles") (view value.now) ≢ Some (array_of natural angles)) }
    ensures made { IfErr result (λ fault. fault ≢ Memory → get (codes "angles") (view value.now) ≢ None) }
    ensures fault { IfErr result (λ fault. fault ≢ Memory → IsWrongField IsWrongAngles (codes "angles") (view value.now) fault) }
{
    match value.get("angles") {
        Some(field) => Ok(Some(angle_list(alloc, field)?)),
        None => Ok(None),
    }
}

/// The angles that a JSON value holds as an array, in order. `Angles` if the value is no array, `Number` if an element
/// is no integer from 0 to 255, `Memory` if memory runs out.
fn angle_list(alloc: Global, value: &Value) -> Result<Vec<u8>, LineFault>
    ensures ok { IfOk result (λ angles. view value.now ≡ array_of natural angles.items) }
    ensures none { IfErr result (λ fault. fault ≢ Memory
        → (angles : List ℕ) → All (λ angle. angle ≤ 255) angles → view value.now ≢ array_of natural angles) }
    ensures fault { IfErr result (λ fault. fault ≢ Memory → IsWrongAngles (view value.now) fault) }
{
    let mut angles = Vec::new(alloc);
    let elements = list_in(value, LineFault::Angles)?;
    for element in elements {
        angles.push(number_in(element, 255)? as u8)?;
    }
    Ok(angles)
}

/// The prices that the field `prices` of a JSON value claims; `None` if the value has no such field or is no object.
/// `Prices` if the field lacks an array `vertices` or `faces`, `Number` if an element of these is no signed integer of
/// 32 bits, `Memory` if memory runs out; the first error counts.
///
/// # Errors
///
/// `Memory` if memory runs out. Otherwise `Prices` if the field has no list in `vertices` or `faces`, and `Number` if
/// an element is no signed integer of 32 bits. `vertices` is read before `faces`; the first error counts.
pub(crate) fn prices_in(alloc: Global, value: &Value) -> Result<Option<Prices>, LineFault>
    ensures ok { IfOk result (λ said. MatchOption said (get (codes "prices") (view value.now) ≡ None)
        (SaysPrices (view value.now))) }
    ensures none { IfErr result (λ fault. fault ≢ Memory
        → (prices : PricesModel) → AreOf32Bits prices → SaysPrices (view value.now) prices → ⊥) }
    ensures made { IfErr result (λ fault. fault ≢ Memory → get (codes "prices") (view value.now) ≢ None) }
    ensures fault { IfErr result (λ fault. fault ≢ Memory → IsWrongField IsWrongPrices (codes "prices") (view value.now) fault) }
{
    match value.get("prices") {
        Some(field) => Ok(Some(two_price_lists(alloc, field)?)),
        None => Ok(None),
    }
}

/// The prices in the arrays `vertices` and `faces` of a JSON value, read in this order. `Prices` if one is absent or no
/// array, `Number` if an element is no signed integer of 32 bits, `Memory` if memory runs out; the first error counts.
fn two_price_lists(alloc: Global, field: &Value) -> Result<Prices, LineFault>
    ensures ok { IfOk result (HasPriceLists (view field.now)) }
    ensures none { IfErr result (λ fault. fault ≢ Memory
        → (prices : PricesModel) → AreOf32Bits prices → HasPriceLists (view field.now) prices → ⊥) }
    ensures fault { IfErr result (λ fault. fault ≢ Memory → IsWrongPrices (view field.now) fault) }
{
    let vertices = prices_at(alloc, field, "vertices")?;
    let faces = prices_at(alloc, field, "faces")?;
    Ok(Prices::new(vertices, faces))
}

/// The prices in the field `name` of a JSON value, in order. `Prices` if there is no such field or it is no array,
/// `Number` if an element is no signed integer of 32 bits, `Memory` if memory runs out.
fn prices_at(alloc: Global, value: &Value, name: &str) -> Result<Vec<i32>, LineFault>
    ensures ok { IfOk result (λ prices. HasIntegers name.now (view value.now) prices.items) }
    ensures within { IfOk result (λ prices. All IsOf32Bits prices.items) }
    ensures none { IfErr result (λ fault. fault ≢ Memory
        → (prices : List ℤ) → All IsOf32Bits prices → HasIntegers name.now (view value.now) prices → ⊥) }
    ensures fault { IfErr result (λ fault. fault ≢ Memory → IsWrongPriceList name.now (view value.now) fault) }
{
    match value.get(name) {
        Some(list) => price_list(alloc, list),
        None => Err(LineFault::Prices),
    }
}

/// The prices that a JSON value holds as an array, in order. `Prices` if the value is no array, `Number` if an element
/// is no signed integer of 32 bits, `Memory` if memory runs out.
fn price_list(alloc: Global, value: &Value) -> Result<Vec<i32>, LineFault>
    ensures ok { IfOk result (λ prices. AreIntegers (view value.now) prices.items) }
    ensures within { IfOk result (λ prices. All IsOf32Bits prices.items) }
    ensures none { IfErr result (λ fault. fault ≢ Memory
        → (prices : List ℤ) → All IsOf32Bits prices → AreIntegers (view value.now) prices → ⊥) }
    ensures fault { IfErr result (λ fault. fault ≢ Memory → IsWrongPriceValue (view value.now) fault) }
{
    let mut prices = Vec::new(alloc);
    let elements = list_in(value, LineFault::Prices)?;
    for element in elements {
        prices.push(integer_in(element)?)?;
    }
    Ok(prices)
}

/// The turns that the field `turns` of a JSON value claims: a list for each string of its array, in order; `None` if
/// the value has no such field or is no object. `Turns` if the field is no array of strings of the letters L and R,
/// `Memory` if memory runs out.
///
/// # Errors
///
/// `Memory` if memory runs out. Otherwise `Turns`: the field is no list of texts of the letters L and R.
pub(crate) fn turns_in(alloc: Global, value: &Value) -> Result<Option<Vec<Vec<Turn>>>, LineFault>
    ensures ok { IfOk result (λ said. get (codes "turns") (view value.now)
        ≡ option_map (λ strings. array_of turns_data (lists_in strings.items)) said) }
    ensures none { IfErr result (λ fault. fault ≢ Memory → (strings : List (List Turn))
        → get (codes "turns") (view value.now) ≢ Some (array_of turns_data strings)) }
    ensures made { IfErr result (λ fault. fault ≢ Memory → get (codes "turns") (view value.now) ≢ None) }
    ensures fault { IfErr result (λ fault. fault ≢ Memory → IsWrongField IsWrongTurns (codes "turns") (view value.now) fault) }
{
    match value.get("turns") {
        Some(field) => Ok(Some(turn_lists(alloc, field)?)),
        None => Ok(None),
    }
}

/// The turns that a JSON value holds as an array of strings of the letters L and R: a list for each string, in order.
/// `Turns` if the value is no such array, `Memory` if memory runs out.
fn turn_lists(alloc: Global, value: &Value) -> Result<Vec<Vec<Turn>>, LineFault>
    ensures ok { IfOk result (λ strings. view value.now ≡ array_of turns_data (lists_in strings.items)) }
    ensures none { IfErr result (λ fault. fault ≢ Memory
        → (strings : List (List Turn)) → view value.now ≢ array_of turns_data strings) }
    ensures fault { IfErr result (λ fault. fault ≢ Memory → fault ≡ Turns) }
{
    let mut strings = Vec::new(alloc);
    let elements = list_in(value, LineFault::Turns)?;
    for element in elements {
        strings.push(turns_of(alloc, element)?)?;
    }
    Ok(strings)
}

/// The turns that a JSON value holds as a string of the letters L and R, in order. `Turns` if the value is no such
/// string, `Memory` if memory runs out.
fn turns_of(alloc: Global, value: &Value) -> Result<Vec<Turn>, LineFault>
    ensures ok { IfOk result (λ turns. view value.now ≡ turns_data turns.items) }
    ensures none { IfErr result (λ fault. fault ≢ Memory
        → (turns : List Turn) → view value.now ≢ turns_data turns) }
    ensures fault { IfErr result (λ fault. fault ≢ Memory → fault ≡ Turns) }
{
    let text = text_in(value, LineFault::Turns)?;
    turns_of_letters(alloc, text.as_bytes())
}

/// The turns that `letters`, each L or R, encode, in order. `Turns` if there is any other byte, `Memory` if memory runs
/// out.
fn turns_of_letters(alloc: Global, letters: &[u8]) -> Result<Vec<Turn>, LineFault>
    ensures ok { IfOk result (λ turns. letters.now ≡ map letter_of turns.items) }
    ensures none { IfErr result (λ fault. fault ≢ Memory → (turns : List Turn) → letters.now ≢ map letter_of turns) }
    ensures fault { IfErr result (λ fault. fault ≢ Memory → fault ≡ Turns) }
{
    let mut turns = Vec::new(alloc);
    for letter in letters {
        let turn = match turn_of(*letter) {
            Some(turn) => turn,
            None => return Err(LineFault::Turns),
        };
        turns.push(turn)?;
    }
    Ok(turns)
}

/// The turn of a letter: left for L, right for R; `None` for any other byte.
fn turn_of(letter: u8) -> Option<Turn>
    ensures some { IfSome result (λ turn. letter ≡ letter_of turn) }
    ensures none { IfNone result ((turn : Turn) → letter ≢ letter_of turn) }
{
    match letter {
        b'L' => Some(Turn::Left),
        b'R' => Some(Turn::Right),
        _ => None,
    }
}
