//! Groups of steps.

ghost use Rattle.std.specs.Prelude.{◌≡◌, List as Seq, map, zip, IfOk};
ghost use Rattle.meaning.specs.Steps as steps;
ghost use Rattle.scopes.specs.Values.{HasValuesOf};
ghost use Rattle.steps_template.specs.Opened.{phase_told, seen};

use crate::row;
use base_types::{List, Memory};
use call_nodes::{add_tags_of, bare};
use meaning::Place;
use scopes::Tags;
use steps_template::law::tells_group;
use steps_template::{GroupState, Member, Members, StepsStep, steps_next};
use tree_state::{Shared, State};
use tree_types::{Kind, Note, Phase, Wants};
use wf_manifest::{Call, Group};

/// The node of a group over its members, given what each of its calls made.
pub fn group_state(place: Place, calls: &Group, states: List<Shared>) -> Result<State, Memory>
    ensures { (ms : Seq steps.Member) → map (λ m. m.0) ms ≡ calls.now → steps.makings ms ≡ states →
        IfOk result (λ s. s ≡ steps.group_made place ms) }
{
    let phase = group_phase(calls, &states)?;
    let node = bare(place, Kind::StepGroup, phase, Note::None);
    let wants = Wants::new(states.allocator());
    Ok(State::new(node, wants, row(states)?))
}

/// The tags of the members of a group, given what each of its calls made.
pub fn group_tags(calls: &Group, states: &List<Shared>) -> Result<Tags, Memory>
    ensures { (ms : Seq steps.Member) → map (λ m. m.0) ms ≡ calls.now → steps.makings ms ≡ states.now →
        IfOk result (λ tags. HasValuesOf tags (steps.group_tags ms)) }
{
    let mut tags = Tags::new(calls.allocator());
    let mut left = calls.len().min(states.len());
    while left > 0 {
        left -= 1;
        add_tags_of(
            &mut tags,
            "steps.",
            &calls.get(left).name,
            states.get(left).state().node(),
        )?;
    }
    Ok(tags)
}

// The phase of a group, by what follows it.
fn group_phase(calls: &Group, states: &List<Shared>) -> Result<Phase, Memory>
    ensures { IfOk result (λ phase. phase ≡ steps.group_phase (zip calls.now states.now)) }
{
    tells_group();
    let members = members_of(calls, states)?;
    let group = GroupState {
        made: true,
        members,
    };
    Ok(phase_said(steps_next(&[group])))
}

// The phase of groups that are made, by what follows them.
fn phase_said(step: StepsStep) -> Phase
    ensures { result ≡ phase_told step }
{
    match step {
        StepsStep::Over(phase) => phase,
        StepsStep::Wait | StepsStep::Open(_) => Phase::Running,
    }
}

// How the members of a group stand.
fn members_of(calls: &Group, states: &List<Shared>) -> Result<Members, Memory>
    ensures { IfOk result (λ members. members ≡ map seen (zip calls.now states.now)) }
{
    let count = calls.len().min(states.len());
    let mut members = Members::with_capacity(states.allocator(), count)?;
    for i in 0..count {
        members.push(member_of(calls.get(i), states.get(i).state()))?;
    }
    Ok(members)
}

fn member_of(call: &Call, made: &State) -> Member
    ensures { result ≡ seen (call.now, made.now) }
{
    let (covers_failed, covers_error) = match &call.continue_on {
        None => (false, false),
        Some(covered) => (covered.failed, covered.error),
    };
    Member {
        phase: made.phase(),
        finished: made.is_finished(),
        covers_failed,
        covers_error,
    }
}
