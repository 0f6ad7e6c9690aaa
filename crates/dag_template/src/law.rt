//! The laws of what follows the tasks of a DAG.

ghost use Rattle.dag_template.specs.Seen.{SolvedIsTold, StatesSuffice};
ghost use Rattle.dag_template.specs.Stands.{SeenAsItStands};
ghost use Rattle.dag_template.specs.Verdicts.{StandsByVerdict};

use growth::laws::rounds_settle;

/// Where tasks have a rank, a list that solves the equations of a DAG, with what the states of its tasks say, tells what
/// follows: so the tasks may be gone through once, each behind those that it waits for.
pub fn solved_is_told()
    ensures { SolvedIsTold }
{
    rounds_settle();
}

/// The states of the tasks suffice: what follows by them is what follows by all that the tasks make.
pub fn states_suffice()
    ensures { StatesSuffice }
{
    rounds_settle();
}

/// Each task is seen as it stands, given how the others are seen.
pub fn seen_as_it_stands()
    ensures { SeenAsItStands }
{}

/// How each task stands is told by its verdict, given how the others stand.
pub fn stands_by_verdict()
    ensures { StandsByVerdict }
{}
