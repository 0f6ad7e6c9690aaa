//! Where the faults of conditions are, and what tasks depend on (`when_expr`, `depends_expr`).

use depends_expr::{DependsRefused, TaskResult, eval, parse_depends};
use std::alloc::Global;
use when_expr::{WhenRefused, parse_when};

/// A fault is at the byte at which the longest front ends that some condition begins with.
#[test]
fn tells_faults_of_conditions(rt: HostRuntime) {
    for (text, place) in [
        ("", 0),
        ("a", 1),
        ("truex", 5),
        ("1 =", 3),
        ("1 == ", 5),
        ("a = b", 3),
        ("a =~ b", 3),
        ("a in b", 2),
        ("1 === 1", 4),
        ("1 <> 2", 3),
        ("a == b c", 7),
        ("a == b == c", 7),
        ("a & b", 2),
        ("true & true", 6),
        ("true |x", 6),
        ("true || ", 8),
        ("&& true", 0),
        ("true false", 5),
        ("true)", 4),
        ("(true", 5),
        ("()", 1),
        ("!", 1),
        ("'a", 2),
    ] {
        let refused = parse_when(rt.alloc(), text).err();
        assert!(rt; refused == Some(WhenRefused::Bad { place }), "{text}");
    }
}

/// No task's results, and those of tasks of which one thing is known.
const NOTHING: TaskResult = TaskResult {
    succeeded: false,
    failed: false,
    errored: false,
    skipped: false,
    omitted: false,
    any_succeeded: false,
    all_failed: false,
};

const SUCCEEDED: TaskResult = TaskResult {
    succeeded: true,
    ..NOTHING
};

const FAILED: TaskResult = TaskResult {
    failed: true,
    ..NOTHING
};

const ERRORED: TaskResult = TaskResult {
    errored: true,
    ..NOTHING
};

const SKIPPED: TaskResult = TaskResult {
    skipped: true,
    ..NOTHING
};

const OMITTED: TaskResult = TaskResult {
    omitted: true,
    ..NOTHING
};

const SOME_SUCCEEDED: TaskResult = TaskResult {
    any_succeeded: true,
    ..NOTHING
};

const ALL_FAILED: TaskResult = TaskResult {
    all_failed: true,
    ..NOTHING
};

/// What a text of two names says, the one that stands first with the first of two results.
fn says(alloc: Global, text: &str, first: TaskResult, second: TaskResult) -> Option<bool> {
    let depends = parse_depends(alloc, text).ok()?;
    if depends.names() == 2 {
        Some(eval(&depends, &[first, second]))
    } else {
        None
    }
}

/// A bare name is Succeeded, Skipped or Daemoned, and no task is daemoned.
#[test]
fn tells_depends(rt: HostRuntime) {
    for (text, a, b, truth) in [
        ("A && B", SUCCEEDED, SKIPPED, true),
        ("A && B", SUCCEEDED, FAILED, false),
        ("A && B", OMITTED, SUCCEEDED, false),
        ("A || B", FAILED, SKIPPED, true),
        ("A || B", ERRORED, OMITTED, false),
        (" A.Succeeded&&B.Failed ", SUCCEEDED, FAILED, true),
        ("A.Succeeded || B.Failed", SKIPPED, ERRORED, false),
        ("A.Errored && B.Skipped", ERRORED, SKIPPED, true),
        ("A.Errored || B.Skipped", FAILED, SUCCEEDED, false),
        ("A.Omitted && B.AnySucceeded", OMITTED, SOME_SUCCEEDED, true),
        ("A.Omitted || B.AnySucceeded", SKIPPED, SUCCEEDED, false),
        ("A.AllFailed && !B", ALL_FAILED, ALL_FAILED, true),
        ("A.AllFailed || B.AllFailed", FAILED, FAILED, false),
        ("A.Daemoned || B.Daemoned", SUCCEEDED, SKIPPED, false),
        ("!(A || B) && !B.Failed", NOTHING, FAILED, false),
        ("A || B && A.Failed", SUCCEEDED, FAILED, true),
        ("(A || B) && A.Failed", SUCCEEDED, FAILED, false),
    ] {
        assert!(rt; says(rt.alloc(), text, a, b) == Some(truth), "{text}");
    }
}

#[test]
fn tells_faults_of_depends(rt: HostRuntime) {
    for (text, place) in [
        ("", 0),
        ("é", 0),
        ("A B", 2),
        ("A &&", 4),
        ("A & B", 3),
        ("A .Failed", 2),
        ("A. Failed", 2),
        ("A.Fail", 6),
        ("A.Foo", 3),
        ("A.Succeededx", 11),
        ("A.Failed.B", 8),
        ("(A", 2),
        ("A)", 1),
        ("!", 1),
    ] {
        let refused = parse_depends(rt.alloc(), text).err();
        assert!(rt; refused == Some(DependsRefused::Bad { place }), "{text}");
    }
}
