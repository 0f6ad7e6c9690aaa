//! The next attempt of a pod with a retry.

ghost use Rattle.std.specs.Prelude.{◌≡◌, ◌≤◌, ◌<◌, ◌^◌, length};
ghost use Rattle.meaning.specs.Pods as pods;
ghost use Rattle.retry_policy.specs.Attempts.{next, next_by, tried_again, starts_at};

use base_types::limits::MOST_ATTEMPTS;
use time_text::backoff_delay;
use tree_types::Phase;
use wf_manifest::{Backoff, Policy, Retry};

/// An attempt that has ended: the phase of its node, whether it was a transient Error, and its ticks in seconds.
#[derive(Clone, Copy, Debug, PartialEq, Eq)]
pub struct Tried {
    pub phase: Phase,
    pub transient: bool,
    pub begin: u64,
    pub finish: u64,
}

/// What follows attempts that have ended.
#[derive(Clone, Copy, Debug, PartialEq, Eq)]
pub enum AttemptStep {
    /// No further attempt follows: the retry has the phase and the outputs of the last one.
    Over,
    /// Attempt `k` waits for its timer, which is due at `tick`.
    At { k: u32, tick: u64 },
    /// Attempt `k` begins.
    Now { k: u32 },
}

/// What follows the attempts `tried`, which have all ended. `due` says whether the timer of the next attempt was due; it
/// counts only under a `backoff` (field reference, `RetryStrategy` and `Backoff`).
pub fn next_attempt(retry: &Retry, tried: &[Tried], due: bool) -> AttemptStep
    requires few { length tried.now < 2 ^ 32 }
    ensures { result ≡ next retry.now tried.now due }
{
    let k = tried.len();
    if k == 0 {
        return AttemptStep::Now { k: 0 };
    }
    step_after(retry, &tried[0], &tried[k - 1], k as u32, due)
}

/// What follows `k` attempts, of which these are the first and the last; the last has ended. `due` says whether the timer of
/// attempt `k` was due.
pub fn step_after(retry: &Retry, first: &Tried, last: &Tried, k: u32, due: bool) -> AttemptStep
    requires { 1 ≤ k }
    ensures { result ≡ next_by retry.now first.now last.now k due }
{
    if k as u64 <= further(retry) && is_tried_again(retry, first, last) {
        starts_at(retry.backoff, last.finish, k, due)
    } else {
        AttemptStep::Over
    }
}

// How many attempts may follow the first.
fn further(retry: &Retry) -> u64
    ensures { result ≡ pods.further retry.now }
{
    retry.limit.unwrap_or(MOST_ATTEMPTS - 1)
}

fn is_tried_again(retry: &Retry, first: &Tried, last: &Tried) -> bool
    ensures { result ≡ tried_again retry.now first.now last.now }
{
    retries(retry.policy, last.phase, last.transient)
        && is_time_left(retry.backoff, first.begin, last.finish)
}

fn retries(policy: Policy, phase: Phase, transient: bool) -> bool
    ensures { result ≡ pods.retries policy phase transient }
{
    match policy {
        Policy::OnFailure => phase == Phase::Failed,
        Policy::OnError => phase == Phase::Error,
        Policy::Always => matches!(phase, Phase::Failed | Phase::Error),
        Policy::OnTransientError => phase == Phase::Error && transient,
    }
}

fn is_time_left(backoff: Option<Backoff>, begin: u64, finish: u64) -> bool
    ensures { result ≡ pods.time_left backoff begin finish }
{
    match backoff {
        Some(
            Backoff {
                max_duration: Some(most),
                ..
            },
        ) => finish.saturating_sub(begin) < most,
        _ => true,
    }
}

fn starts_at(backoff: Option<Backoff>, finish: u64, k: u32, due: bool) -> AttemptStep
    requires { 1 ≤ k }
    ensures { result ≡ starts_at backoff finish k due }
{
    match backoff {
        Some(backoff) if !due => AttemptStep::At {
            k,
            tick: finish.saturating_add(backoff_delay(backoff.duration, backoff.factor, k)),
        },
        _ => AttemptStep::Now { k },
    }
}
