//! Adds the facts of written histories to workflows one by one, and tells whether each tree on the way is the one that is made
//! anew, and the last one as the case says. With the word `time` it tells what both ways cost instead.
#![tactic(auto)]

ghost use Rattle.std.specs.Prelude.{All};
ghost use Rattle.wf_manifest.specs.Valid.{Valid as IsValid};

mod case;
mod journal;
mod order;
mod refused;
mod replay;
mod time;

use case::{Case, document_of};
use io_edge::{StdSource, read_all};
use refused::ReplaysRefused;
use serde_json::Value;
use std::env;
use std::process::ExitCode;
use wf_bundle::Document;

// How many bytes of cases are read: as many as there are, since a history is far longer than the document that it comes of.
const ALL: usize = usize::MAX - 1;

// The cases, as the input says them.
fn read_cases(rt: &HostRuntime) -> Result<Vec<Value>, ReplaysRefused> {
    let alloc = rt.alloc();
    let mut source = StdSource::new(rt.stdin());
    let bytes = read_all(alloc, &mut source, ALL)?;
    match Value::from_slice(alloc, bytes.as_slice())? {
        Value::Array(cases) => Ok(cases),
        _ => Err(ReplaysRefused::NoList),
    }
}

// Whether the first word is `time`.
fn is_timed(rt: &HostRuntime) -> Result<bool, ReplaysRefused> {
    let mut words = env::args(rt)?;
    let _ = words.next();
    match words.next() {
        None => Ok(false),
        Some(word) => Ok(word.as_str() == "time"),
    }
}

// Prints what came of the case, and answers whether it is as it says.
fn tell(rt: &HostRuntime, case: &Case, document: &Document) -> Result<bool, ReplaysRefused>
    requires { All IsValid document.now.workflows }
{
    let name = case.name.as_str();
    match case.difference(rt.alloc(), document)? {
        None => {
            println!(rt; "ok {name}")?;
            Ok(true)
        }
        Some(difference) => {
            println!(rt; "not ok {name}: {difference}")?;
            Ok(false)
        }
    }
}

// Goes through the case that a JSON value says; the answer says whether it is as it says.
fn go_through(rt: &HostRuntime, value: &Value, timed: bool) -> Result<bool, ReplaysRefused> {
    let case = Case::read(rt.alloc(), value)?;
    let document = document_of(rt.alloc(), value)?;
    if timed {
        time::tell(rt, &case, &document)?;
        return Ok(true);
    }
    tell(rt, &case, &document)
}

// Goes through all cases; the answer says whether all are as they say.
fn run_all(rt: &HostRuntime) -> Result<bool, ReplaysRefused> {
    let timed = is_timed(rt)?;
    let mut agreed = true;
    for value in &read_cases(rt)? {
        let agrees = go_through(rt, value, timed)?;
        agreed = agreed && agrees;
    }
    Ok(agreed)
}

fn main(rt: HostRuntime) -> ExitCode {
    match run_all(&rt) {
        Ok(true) => ExitCode::SUCCESS,
        Ok(false) => ExitCode::FAILURE,
        Err(refused) => {
            let _ = println!(rt; "replays: {refused}");
            ExitCode::FAILURE
        }
    }
}
