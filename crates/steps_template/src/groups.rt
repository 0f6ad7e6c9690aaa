//! The next group of a steps template, or its end.

ghost use Rattle.std.specs.Prelude.{◌≡◌, ◌<◌, ◌^◌, length, map};
ghost use Rattle.std.specs.List.{list_all};
ghost use Rattle.tree_types.specs.Phases.{worst_of};
ghost use Rattle.steps_template.specs.Groups as spec;

use base_types::List;
use tree_types::{Phase, worst};

/// How a step of a group stands: the phase of its node, whether its call is finished, and which failures of it its
/// `continueOn` covers (field reference, `ContinueOn`).
#[derive(Clone, Copy, Debug, PartialEq, Eq)]
pub struct Member {
    pub phase: Phase,
    pub finished: bool,
    pub covers_failed: bool,
    pub covers_error: bool,
}

/// A list of members.
pub type Members = List<Member>;

/// How a group of a template stands. Its members count only where it is made.
#[derive(Debug, Drop)]
pub struct GroupState {
    pub made: bool,
    pub members: Members,
}

/// What follows the groups that are made.
#[derive(Clone, Copy, Debug, PartialEq, Eq)]
pub enum StepsStep {
    /// The group at this position is made next.
    Open(u32),
    /// A group is not finished.
    Wait,
    /// The template is over, with this phase.
    Over(Phase),
}

/// What follows the groups of a steps template, given for each of them whether it is made and how its members stand
/// (Argo, "Steps").
pub fn steps_next(groups: &[GroupState]) -> StepsStep
    requires few { length groups.now < 2 ^ 32 }
    ensures { result ≡ spec.next groups.now }
{
    for i in 0..groups.len() {
        let group = &groups[i];
        if !group.made {
            return StepsStep::Open(i as u32);
        }
        let phase = group_phase(group.members.as_slice());
        if !is_succeeded(phase) {
            return stopped(phase);
        }
    }
    StepsStep::Over(Phase::Succeeded)
}

fn is_succeeded(phase: Phase) -> bool
    ensures { result ≡ spec.is_succeeded phase }
{
    matches!(phase, Phase::Succeeded)
}

fn stopped(phase: Phase) -> StepsStep
    ensures { result ≡ spec.stopped phase }
{
    match phase {
        Phase::Running => StepsStep::Wait,
        _ => StepsStep::Over(phase),
    }
}

fn group_phase(members: &[Member]) -> Phase
    ensures { result ≡ spec.group_phase members.now }
{
    if are_finished(members) {
        worst_phase(members)
    } else {
        Phase::Running
    }
}

fn are_finished(members: &[Member]) -> bool
    ensures { result ≡ list_all (λ m. m.finished) members.now }
{
    for i in 0..members.len() {
        if !members[i].finished {
            return false;
        }
    }
    true
}

fn worst_phase(members: &[Member]) -> Phase
    ensures { result ≡ worst_of (map spec.member_phase members.now) }
{
    let mut phase = Phase::Succeeded;
    let mut left = members.len();
    while left > 0 {
        left -= 1;
        phase = worst(member_phase(&members[left]), phase);
    }
    phase
}

// The phase of a member as its group sees it.
fn member_phase(member: &Member) -> Phase
    ensures { result ≡ spec.member_phase member.now }
{
    match (member.phase, member.covers_failed, member.covers_error) {
        (Phase::Skipped, _, _) | (Phase::Failed, true, _) | (Phase::Error, _, true) => {
            Phase::Succeeded
        }
        (phase, _, _) => phase,
    }
}
