//! The wait between two attempts of a retry.

ghost use Rattle.std.specs.Prelude.{◌≡◌, ◌≤◌, ◌*◌, min};
ghost use Rattle.base_types.specs.Limits.{most_seconds};
ghost use Rattle.time_text.specs.Durations.{delay};

use base_types::limits::MOST_SECONDS;

/// The seconds from the finish of attempt k - 1 to attempt k, by the `backoff` of a retry: `duration` grows by `factor`
/// with each attempt, up to 365 days.
pub fn backoff_delay(duration: u64, factor: u64, k: u32) -> u64
    requires { 1 ≤ k }
    ensures { result ≡ delay duration factor k }
{
    if factor > 1 {
        grown(duration, factor, k)
    } else if factor == 0 && k > 1 {
        0
    } else {
        duration.min(MOST_SECONDS)
    }
}

// As the wait at least doubles, it stays 0 or is cut after a few rounds.
#[tactic(auto, using(crate::proofs::Delay::delay_more, crate::proofs::Delay::delay_stays))]
fn grown(duration: u64, factor: u64, k: u32) -> u64
    requires first { 1 ≤ k }
    requires doubles { 2 ≤ factor }
    ensures { result ≡ delay duration factor k }
{
    let mut wait = duration.min(MOST_SECONDS);
    for _ in 1..k {
        if wait == 0 || wait == MOST_SECONDS {
            return wait;
        }
        wait = next_wait(wait, factor);
    }
    wait
}

fn next_wait(wait: u64, factor: u64) -> u64
    ensures { result ≡ min most_seconds (wait * factor) }
{
    wait.saturating_mul(factor).min(MOST_SECONDS)
}
