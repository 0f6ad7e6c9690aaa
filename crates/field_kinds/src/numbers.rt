//! Numbers and truth values.

ghost use Rattle.std.specs.Prelude.{◌≡◌, ◌≤◌, ◌≤ℤ◌, IfOk, IfSome};
ghost use Rattle.serde_json.specs.View.{view};
ghost use Rattle.field_kinds.specs.Refusing.{Reads};
ghost use Rattle.field_kinds.specs.Kinds.{flag, whole_in, number_in, in_range, counted_in};
ghost use Rattle.field_kinds.specs.Fields.{optional, required, default};

use crate::KindRefused;
use crate::refused::refused_field;
use crate::rules::{MISSING, WRONG_KIND};
use json_fields::{FieldPath, take_flag, take_whole};
use serde_json::Value;

/// A truth value, and `otherwise` where the field is absent.
pub fn flag_or(
    object: &Value,
    name: &str,
    otherwise: bool,
    at: &FieldPath,
) -> Result<bool, KindRefused>
    ensures { Reads result (default otherwise flag name.now at.now (view object.now)) }
{
    Ok(take_flag(object, name, at)?.unwrap_or(otherwise))
}

/// A whole number from `low` to `high`.
pub fn optional_whole(
    object: &Value,
    name: &str,
    low: i64,
    high: i64,
    at: &FieldPath,
) -> Result<Option<i64>, KindRefused>
    ensures read { Reads result (optional (whole_in low high) name.now at.now (view object.now)) }
    ensures within { IfOk result
        (λ taken. IfSome taken (λ whole. (low ≤ℤ whole) × (whole ≤ℤ high))) }
{
    match take_whole(object, name, at)? {
        None => Ok(None),
        Some(whole) => match in_range(low, high, whole) {
            Some(whole) => Ok(Some(whole)),
            None => Err(refused_field(WRONG_KIND, name, at)?),
        },
    }
}

fn in_range(low: i64, high: i64, whole: i64) -> Option<i64>
    ensures value { result ≡ in_range low high whole }
    ensures within { IfSome result (λ taken. (low ≤ℤ taken) × (taken ≤ℤ high)) }
{
    if whole < low || high < whole {
        None
    } else {
        Some(whole)
    }
}

/// A whole number from `low` to `high`, and `otherwise` where the field is absent.
pub fn whole_or(
    object: &Value,
    name: &str,
    low: i64,
    high: i64,
    otherwise: i64,
    at: &FieldPath,
) -> Result<i64, KindRefused>
    requires { (low ≤ℤ otherwise) × (otherwise ≤ℤ high) }
    ensures read { Reads result
        (default otherwise (whole_in low high) name.now at.now (view object.now)) }
    ensures within { IfOk result (λ whole. (low ≤ℤ whole) × (whole ≤ℤ high)) }
{
    Ok(optional_whole(object, name, low, high, at)?.unwrap_or(otherwise))
}

/// A number that is not negative, from `low` to `high`.
pub fn optional_number(
    object: &Value,
    name: &str,
    low: u64,
    high: u64,
    at: &FieldPath,
) -> Result<Option<u64>, KindRefused>
    ensures read { Reads result (optional (number_in low high) name.now at.now (view object.now)) }
    ensures within { IfOk result
        (λ taken. IfSome taken (λ number. (low ≤ number) × (number ≤ high))) }
{
    match take_whole(object, name, at)? {
        None => Ok(None),
        Some(whole) => match counted_in(low, high, whole) {
            Some(number) => Ok(Some(number)),
            None => Err(refused_field(WRONG_KIND, name, at)?),
        },
    }
}

fn counted_in(low: u64, high: u64, whole: i64) -> Option<u64>
    ensures value { result ≡ counted_in low high whole }
    ensures within { IfSome result (λ number. (low ≤ number) × (number ≤ high)) }
{
    let number = u64::try_from(whole).ok()?;
    if number < low || high < number {
        None
    } else {
        Some(number)
    }
}

/// A number that is not negative, from `low` to `high`, and `otherwise` where the field is absent.
pub fn number_or(
    object: &Value,
    name: &str,
    low: u64,
    high: u64,
    otherwise: u64,
    at: &FieldPath,
) -> Result<u64, KindRefused>
    requires { (low ≤ otherwise) × (otherwise ≤ high) }
    ensures read { Reads result
        (default otherwise (number_in low high) name.now at.now (view object.now)) }
    ensures within { IfOk result (λ number. (low ≤ number) × (number ≤ high)) }
{
    Ok(optional_number(object, name, low, high, at)?.unwrap_or(otherwise))
}

/// A number that is not negative, from `low` to `high`, that must be there.
pub fn required_number(
    object: &Value,
    name: &str,
    low: u64,
    high: u64,
    at: &FieldPath,
) -> Result<u64, KindRefused>
    ensures read { Reads result (required (number_in low high) name.now at.now (view object.now)) }
    ensures within { IfOk result (λ number. (low ≤ number) × (number ≤ high)) }
{
    match optional_number(object, name, low, high, at)? {
        Some(number) => Ok(number),
        None => Err(refused_field(MISSING, name, at)?),
    }
}
