//! Runs each case of its input through the top call over memory, and tells whether it ends as it says.
#![tactic(auto)]

mod case;
mod members;
mod outcome;
mod reading;
mod refused;
mod wide;

use base_types::limits::LONGEST_INPUT;
use case::Case;
use io_edge::{StdSource, read_all};
use outcome::Outcome;
use reading::read_case;
use refused::CasesRefused;
use serde_json::Value;
use std::process::ExitCode;

// The cases, as the input says them.
fn read_cases(rt: &HostRuntime) -> Result<Vec<Value>, CasesRefused> {
    let alloc = rt.alloc();
    let mut source = StdSource::new(rt.stdin());
    let bytes = read_all(alloc, &mut source, LONGEST_INPUT)?;
    match Value::from_slice(alloc, bytes.as_slice())? {
        Value::Array(cases) => Ok(cases),
        _ => Err(CasesRefused::NoList),
    }
}

// Prints what came of the case.
fn tell(rt: &HostRuntime, case: &Case, found: &Outcome) -> Result<(), CasesRefused> {
    let name = case.name.as_str();
    if found.is(&case.expected) {
        println!(rt; "ok {name}")?;
    } else {
        let (status, text) = (found.status, found.text());
        println!(rt; "not ok {name}: status {status}, {text:?}")?;
    }
    Ok(())
}

// Runs each case; the answer says whether all of them ended as they say.
fn run_all(rt: &HostRuntime) -> Result<bool, CasesRefused> {
    let mut agreed = true;
    for value in &read_cases(rt)? {
        let case = read_case(rt.alloc(), value)?;
        let found = case.run(rt.alloc())?;
        tell(rt, &case, &found)?;
        agreed = agreed && found.is(&case.expected);
    }
    Ok(agreed)
}

fn main(rt: HostRuntime) -> ExitCode {
    match run_all(&rt) {
        Ok(true) => ExitCode::SUCCESS,
        Ok(false) => ExitCode::FAILURE,
        Err(refused) => {
            let _ = println!(rt; "examples: {refused}");
            ExitCode::FAILURE
        }
    }
}
