//! The pods that a call asks for: how many there are, and the first from a position on that passes a test.

ghost use Rattle.std.specs.Prelude.{◌≡◌, ◌+◌, ◌<◌, ◌≤◌, ◌^◌, [], ◌∷◌, length, option_map};
ghost use Rattle.meaning.specs.Lines.{lines_in, lines_below, nothing};
ghost use Rattle.meaning.specs.Trees.{wants_in};
ghost use Rattle.tree_state.specs.Finding.{pods_in, found_at, found_from};
ghost use Rattle.tree_state.specs.Inside.Kids.{own_line, line_then, state_then, kid_parts};

use crate::state::{Kid, Line};
use crate::tally::{count_of, one_of};
use crate::{State, WantKind, WantTest};
use tree_types::{Want, Wants};

impl State {
    /// How many pods the call asks for. Nothing below the node is looked through.
    pub fn pods(&self) -> usize
        ensures { result ≡ length (pods_in (wants_in (lines_in self.now))) }
    {
        self.count_pods()
    }

    /// The first pod from a position on that passes a test, with its position. What asks for no pod, or only for pods before
    /// that position, is not looked through.
    pub fn find_pod_from<T: WantTest>(&self, from: usize, test: &T) -> Option<(usize, &Want)>
        ensures { option_map (λ f. (f.0, f.1.now)) result
            ≡ found_from from (T.accepts test.now) (pods_in (wants_in (lines_in self.now))) }
    {
        if self.pods() <= from {
            return None;
        }
        self.find_pod_at(0, from, test)
    }

    // The same, and that there are not too many for a further one to be counted.
    pub(crate) fn count_pods(&self) -> usize
        ensures all { result ≡ length (pods_in (wants_in (lines_in self.now))) }
        ensures few { result < 2 ^ 63 + 2 ^ 32 }
    {
        count_of(WantKind::Pod, &self.wants) + self.below.pods()
    }

    // The first pod that is found, where the first of all has a position.
    #[cycle(find_pod)]
    pub(crate) fn find_pod_at<T: WantTest>(
        &self,
        at: usize,
        from: usize,
        test: &T,
    ) -> Option<(usize, &Want)>
        requires { at + length (pods_in (wants_in (lines_in self.now))) < 2 ^ 64 }
        ensures { option_map (λ f. (f.0, f.1.now)) result
            ≡ found_at from at (T.accepts test.now) (pods_in (wants_in (lines_in self.now))) }
    {
        if let Some(found) = pod_in(&self.wants, at, from, test) {
            return Some(found);
        }
        self.below
            .find_pod_at(at + count_of(WantKind::Pod, &self.wants), from, test)
    }
}

// The first pod of these that is found, where the first of all has a position.
fn pod_in<'a, T: WantTest>(
    wants: &'a Wants,
    at: usize,
    from: usize,
    test: &T,
) -> Option<(usize, &'a Want)>
    requires { at + length (pods_in wants.now) < 2 ^ 64 }
    ensures { option_map (λ f. (f.0, f.1.now)) result
        ≡ found_at from at (T.accepts test.now) (pods_in wants.now) }
{
    let mut next = at;
    for want in wants.as_slice() {
        if let Some(found) = pod_at(want, next, from, test) {
            return Some(found);
        }
        next += one_of(WantKind::Pod, want);
    }
    None
}

// The want itself, if it is a pod that is found at its position.
fn pod_at<'a, T: WantTest>(
    want: &'a Want,
    at: usize,
    from: usize,
    test: &T,
) -> Option<(usize, &'a Want)>
    ensures { option_map (λ f. (f.0, f.1.now)) result
        ≡ found_at from at (T.accepts test.now) (pods_in (want.now ∷ [])) }
{
    if WantKind::Pod.is_of(want) && from <= at && test.accepts(want) {
        Some((at, want))
    } else {
        None
    }
}

impl Line {
    fn pod_at<T: WantTest>(&self, at: usize, from: usize, test: &T) -> Option<(usize, &Want)>
        ensures { option_map (λ f. (f.0, f.1.now)) result ≡ found_at from at (T.accepts test.now)
            (pods_in (wants_in (lines_below (own_line self.now nothing)))) }
    {
        match self {
            Line::MayBegin(_) => None,
            Line::Asks(want) => pod_at(want, at, from, test),
        }
    }
}

impl Kid {
    pub(crate) fn pods(&self) -> usize
        ensures { result ≡ length (pods_in (wants_in (lines_below (kid_parts self.now)))) }
    {
        self.own_count(WantKind::Pod) + self.call_pods()
    }

    // How many pods the kid's call asks for.
    fn call_pods(&self) -> usize
        ensures all { result ≡ length (pods_in (wants_in (lines_below (state_then self.now.state nothing)))) }
        ensures few { result < 2 ^ 63 + 2 ^ 32 }
    {
        match &self.state {
            None => 0,
            Some(state) => state.state.count_pods(),
        }
    }

    // The pod of the kid's own line, if it is found.
    fn own_pod_at<T: WantTest>(&self, at: usize, from: usize, test: &T) -> Option<(usize, &Want)>
        ensures { option_map (λ f. (f.0, f.1.now)) result ≡ found_at from at (T.accepts test.now)
            (pods_in (wants_in (lines_below (line_then self.now.line nothing)))) }
    {
        match &self.line {
            None => None,
            Some(line) => line.pod_at(at, from, test),
        }
    }

    #[cycle(find_pod)]
    pub(crate) fn find_pod_at<T: WantTest>(
        &self,
        at: usize,
        from: usize,
        test: &T,
    ) -> Option<(usize, &Want)>
        requires { at + length (pods_in (wants_in
            (lines_below (line_then self.now.line (state_then self.now.state nothing))))) < 2 ^ 64 }
        ensures { option_map (λ f. (f.0, f.1.now)) result ≡ found_at from at (T.accepts test.now) (pods_in (wants_in
            (lines_below (line_then self.now.line (state_then self.now.state nothing))))) }
    {
        if let Some(found) = self.own_pod_at(at, from, test) {
            return Some(found);
        }
        match &self.state {
            None => None,
            Some(state) => state
                .state
                .find_pod_at(at + self.own_count(WantKind::Pod), from, test),
        }
    }
}
