//! From words to an order.

ghost use Rattle.std.specs.Prelude.{◌≡◌, ◌≢◌, ◌-◌, ◌^◌, [], Some, None, Err, IfOk, map, option_map, codes};
ghost use Rattle.base_types.specs.Limits.{most_workers, most_size};
ghost use Rattle.std.specs.List.{list_all};
ghost use Rattle.std.specs.Char.{is_ascii_digit};
ghost use Rattle.clap.specs.Words.{found_of, rows_of, first_of, fault_of};
ghost use Rattle.clap.specs.Values.{kind_of};
ghost use Rattle.command_words.specs.Command.{argo, IsRead};
ghost use Rattle.command_words.specs.Orders as orders;
ghost use Rattle.command_words.specs.Orders.{order_of};

use crate::command::command;
use crate::{Mode, Order, WordsRefused};
use base_types::Text;
use base_types::limits::{MOST_SIZE, MOST_WORKERS};
use clap::error::ErrorKind;
use clap::{ArgMatches, Error};
use std::alloc::{AllocError, Global};

// The digits of a number.
const MOST_DIGITS: usize = 19;

/// The order that the words behind the program's name say: `MODE [options]`, with `--workers N` for `run` (1 where it is
/// absent), `--history` and `--summary` for `run` and `simulate`, and `--seed N` (1), `--size N` (100) and `--bundle` for
/// `generate`. A number has 1 to 19 digits.
pub fn read_words(alloc: Global, words: &[Text]) -> Result<Order, WordsRefused>
    ensures read { IfOk result (λ order. order_of words.now ≡ Some order) }
    ensures usage { result ≡ Err WordsRefused.Usage → order_of words.now ≡ None }
{
    let texts = texts_of(alloc, words)?;
    match matches_in(alloc, texts.as_slice()) {
        Ok(matches) => match order_in(&matches) {
            Some(order) => Ok(order),
            None => Err(WordsRefused::Usage),
        },
        Err(refused) => Err(refused),
    }
}

fn texts_of<'a>(alloc: Global, words: &'a [Text]) -> Result<Vec<&'a str>, AllocError>
    ensures { IfOk result (λ texts. map (λ text. text.now) texts.items ≡ words.now) }
{
    let mut texts = Vec::new(alloc);
    for word in words {
        texts.push(word.as_str())?;
    }
    Ok(texts)
}

// What clap makes of the words.
fn matches_in<'a>(alloc: Global, words: &'a [&'a str]) -> Result<ArgMatches<'a>, WordsRefused>
    ensures ok { IfOk result (IsRead (map (λ word. word.now) words.entry.now)) }
    ensures usage { result ≡ Err WordsRefused.Usage → fault_of argo (map (λ word. word.now) words.entry.now) ≢ [] }
{
    let command = command(alloc)?;
    match command.try_get_matches_from(words) {
        Ok(matches) => Ok(matches),
        Err(error) => Err(refused_by(&error)),
    }
}

fn refused_by(error: &Error) -> WordsRefused
    ensures { result ≡ WordsRefused.Usage → kind_of error.now ≢ ErrorKind.OutOfMemory }
{
    match error.kind() {
        ErrorKind::OutOfMemory => WordsRefused::Memory,
        _ => WordsRefused::Usage,
    }
}

// The value that an option has.
fn value_of<'a>(matches: &ArgMatches<'a>, option: &str) -> Option<&'a str>
    ensures { option_map (λ t. t.now) result ≡ first_of option.now (rows_of (found_of matches.now)) }
{
    matches.get_str(option)
}

// What the matches ask for.
fn order_in(matches: &ArgMatches) -> Option<Order>
    ensures { result ≡ orders.order_in (rows_of (found_of matches.now)) }
{
    let mode = mode_of(value_of(matches, "mode")?)?;
    if is_taken(mode, matches) {
        order_as(mode, matches)
    } else {
        None
    }
}

fn order_as(mode: Mode, matches: &ArgMatches) -> Option<Order>
    ensures { result ≡ orders.order_by mode (rows_of (found_of matches.now))
        (orders.number_or 1 1 most_workers (first_of (codes "workers") (rows_of (found_of matches.now))))
        (orders.number_or 1 0 (2 ^ 64 - 1) (first_of (codes "seed") (rows_of (found_of matches.now))))
        (orders.number_or 100 0 most_size (first_of (codes "size") (rows_of (found_of matches.now)))) }
{
    let workers = number_or(1, 1, MOST_WORKERS as u64, value_of(matches, "workers"))?;
    let seed = number_or(1, 0, u64::MAX, value_of(matches, "seed"))?;
    let size = number_or(100, 0, MOST_SIZE as u64, value_of(matches, "size"))?;
    Some(Order {
        mode,
        workers: workers as u32,
        history: is_set(matches, "history"),
        summary: is_set(matches, "summary"),
        seed,
        size: size as u32,
        bundle: is_set(matches, "bundle"),
    })
}

fn mode_of(text: &str) -> Option<Mode>
    ensures { result ≡ orders.mode_of text.now }
{
    match text {
        "run" => Some(Mode::Run),
        "simulate" => Some(Mode::Simulate),
        "check" => Some(Mode::Check),
        "generate" => Some(Mode::Generate),
        _ => None,
    }
}

fn is_given(matches: &ArgMatches, option: &str) -> bool
    ensures { result ≡ orders.is_given option.now (rows_of (found_of matches.now)) }
{
    value_of(matches, option).is_some()
}

// Whether a flag's value says that it is set.
fn says_true(value: Option<&str>) -> bool
    ensures { result ≡ orders.says_true (option_map (λ t. t.now) value.entry) }
{
    match value {
        None => false,
        Some(value) => value == "true",
    }
}

fn is_set(matches: &ArgMatches, option: &str) -> bool
    ensures { result ≡ orders.is_set option.now (rows_of (found_of matches.now)) }
{
    says_true(value_of(matches, option))
}

fn has_report(matches: &ArgMatches) -> bool
    ensures { result ≡ orders.has_report (rows_of (found_of matches.now)) }
{
    is_set(matches, "history") || is_set(matches, "summary")
}

fn has_draw(matches: &ArgMatches) -> bool
    ensures { result ≡ orders.has_draw (rows_of (found_of matches.now)) }
{
    is_given(matches, "seed") || is_given(matches, "size") || is_set(matches, "bundle")
}

// Whether no option stands with a mode that does not take it.
fn is_taken(mode: Mode, matches: &ArgMatches) -> bool
    ensures { result ≡ orders.is_taken mode (rows_of (found_of matches.now)) }
{
    let workers = is_given(matches, "workers");
    let report = has_report(matches);
    let draw = has_draw(matches);
    match mode {
        Mode::Run => !draw,
        Mode::Simulate => !(draw || workers),
        Mode::Check => !(draw || workers || report),
        Mode::Generate => !(workers || report),
    }
}

// The number that an option's text says, from low to high, and another where the option is absent.
fn number_or(absent: u64, low: u64, high: u64, text: Option<&str>) -> Option<u64>
    ensures { result ≡ orders.number_or absent low high (option_map (λ t. t.now) text.entry) }
{
    match text {
        None => Some(absent),
        Some(text) => number_in(low, high, text),
    }
}

fn number_in(low: u64, high: u64, text: &str) -> Option<u64>
    ensures { result ≡ orders.number_in low high text.now }
{
    if !are_digits(text) {
        return None;
    }
    match text.parse::<u64>() {
        Ok(number) => within(low, high, number),
        Err(_) => None,
    }
}

fn within(low: u64, high: u64, number: u64) -> Option<u64>
    ensures { result ≡ orders.within low high number }
{
    if low <= number && number <= high {
        Some(number)
    } else {
        None
    }
}

fn are_digits(text: &str) -> bool
    ensures { result ≡ orders.are_digits text.now }
{
    is_number_length(text.len()) && all_digits(text.as_bytes())
}

fn is_number_length(length: usize) -> bool
    ensures { result ≡ orders.is_number_length length }
{
    0 < length && length <= MOST_DIGITS
}

fn all_digits(text: &[u8]) -> bool
    ensures { result ≡ list_all is_ascii_digit text.now }
{
    text.iter().all(|byte| byte.is_ascii_digit())
}
