//! Retries, and the grammars of what they say.

ghost use Rattle.std.specs.Prelude.{◌≡◌, IfOk};
ghost use Rattle.std.specs.List.{list_all};
ghost use Rattle.std.specs.Char.{is_ascii_digit};
ghost use Rattle.template_reader.specs.Templates as reads;
ghost use Rattle.template_reader.specs.Texts as texts;

use crate::bodies::{BodyKind, is_no_pod};
use crate::limits::{LEAST_FACTOR, MOST_DIGITS};
use base_types::Memory;
use base_types::limits::{MOST_FACTOR, MOST_HOLDERS, MOST_RETRIES};
use field_kinds::{
    FieldPath, Fields, Grammar, KindRefused, Object, optional, optional_by, refuse_all,
    unsupported_if,
};
use serde_json::Value;
use std::alloc::Global;
use time_text::read_duration;
use wf_manifest::{Backoff, Policy, Retry};

// ---- numbers

fn is_short_number(text: &[u8]) -> bool
    ensures { result ≡ texts.is_short_number text.now }
{
    !text.is_empty() && text.len() <= MOST_DIGITS && are_digits(text)
}

fn are_digits(text: &[u8]) -> bool
    ensures { result ≡ list_all is_ascii_digit text.now }
{
    text.iter().all(|byte| byte.is_ascii_digit())
}

fn within(low: u64, high: u64, number: u64) -> Option<u64>
    ensures { result ≡ texts.within low high number }
{
    if number < low || high < number {
        None
    } else {
        Some(number)
    }
}

fn number_within(low: u64, high: u64, text: &str) -> Option<u64>
    ensures { result ≡ texts.number_within low high text.now }
{
    if !is_short_number(text.as_bytes()) {
        return None;
    }
    let Ok(number) = text.parse::<u64>() else {
        return None;
    };
    within(low, high, number)
}

/// The grammar of a retry's limit: 1 to 4 digits, at most 1000.
#[derive(Drop)]
pub struct LimitText;

impl Grammar for LimitText {
    type Meaning = u64;

    ghost meaning = { texts.retry_limit };

    fn read(_alloc: Global, text: &str) -> Result<Option<u64>, Memory> {
        Ok(number_within(0, MOST_RETRIES, text))
    }
}

/// The grammar of a semaphore's limit: 1 to 4 digits, at most 1000.
#[derive(Drop)]
pub struct HoldersText;

impl Grammar for HoldersText {
    type Meaning = u64;

    ghost meaning = { texts.lock_limit };

    fn read(_alloc: Global, text: &str) -> Result<Option<u64>, Memory> {
        Ok(number_within(0, MOST_HOLDERS, text))
    }
}

/// The grammar of a backoff's factor: 1 to 4 digits, from 1 to 1000.
#[derive(Drop)]
pub struct FactorText;

impl Grammar for FactorText {
    type Meaning = u64;

    ghost meaning = { texts.backoff_factor };

    fn read(_alloc: Global, text: &str) -> Result<Option<u64>, Memory> {
        Ok(number_within(LEAST_FACTOR, MOST_FACTOR, text))
    }
}

// ---- other texts

/// The grammar of spans of time, in seconds.
#[derive(Drop)]
pub struct Seconds;

impl Grammar for Seconds {
    type Meaning = u64;

    ghost meaning = { texts.seconds };

    fn read(_alloc: Global, text: &str) -> Result<Option<u64>, Memory> {
        Ok(read_duration(text).ok())
    }
}

/// The names of policies.
#[derive(Drop)]
pub struct PolicyName;

impl Grammar for PolicyName {
    type Meaning = Policy;

    ghost meaning = { texts.policy_named };

    fn read(_alloc: Global, text: &str) -> Result<Option<Policy>, Memory> {
        Ok(policy_named(text))
    }
}

fn policy_named(text: &str) -> Option<Policy>
    ensures { result ≡ texts.policy_named text.now }
{
    if text == "OnFailure" {
        Some(Policy::OnFailure)
    } else if text == "OnError" {
        Some(Policy::OnError)
    } else if text == "Always" {
        Some(Policy::Always)
    } else if text == "OnTransientError" {
        Some(Policy::OnTransientError)
    } else {
        None
    }
}

// ---- retries

// The fields of `backoff`.
struct BackoffFields;

impl Fields for BackoffFields {
    type Made = Backoff;

    type Around = ();

    ghost fields = { λ _. reads.backoff_fields };

    #[tactic(auto, unfolding(crate::specs::Templates::backoff_fields))]
    fn read_fields(
        alloc: Global,
        backoff: &Value,
        at: &FieldPath,
        _around: &(),
    ) -> Result<Backoff, KindRefused> {
        refuse_all(backoff, &["cap"], at)?;
        Ok(Backoff {
            duration: optional_by::<Seconds>(alloc, backoff, "duration", at)?.unwrap_or(0),
            factor: optional_by::<FactorText>(alloc, backoff, "factor", at)?.unwrap_or(1),
            max_duration: optional_by::<Seconds>(alloc, backoff, "maxDuration", at)?,
        })
    }
}

// The fields of `retryStrategy`.
pub(crate) struct RetryFields;

impl Fields for RetryFields {
    type Made = Retry;

    type Around = Option<BodyKind>;

    ghost fields = { λ body. reads.retry_fields body };

    #[tactic(auto, unfolding(crate::specs::Templates::retry_fields))]
    fn read_fields(
        alloc: Global,
        retry: &Value,
        at: &FieldPath,
        body: &Option<BodyKind>,
    ) -> Result<Retry, KindRefused> {
        refuse_all(retry, &["expression", "affinity"], at)?;
        unsupported_if(is_no_pod(*body), at)?;
        Ok(Retry {
            limit: optional_by::<LimitText>(alloc, retry, "limit", at)?,
            policy: optional_by::<PolicyName>(alloc, retry, "retryPolicy", at)?.unwrap_or(
                Policy::OnFailure,
            ),
            backoff: optional::<Object<BackoffFields>>(alloc, retry, "backoff", at, &())?,
        })
    }
}
