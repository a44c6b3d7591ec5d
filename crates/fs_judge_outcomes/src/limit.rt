//! More states than a list may have.

ghost use Rattle.std.specs.Prelude.{◌≡◌, ◌<◌, ◌≤◌, true, false};
ghost use Rattle.fs_judge_outcomes.specs.Limit.{most_states};

/// How many states a list may have.
const MOST_STATES: usize = 200_000;

/// Are these more states than a list may have?
pub(crate) fn are_too_many(states: usize) -> bool
    ensures more { result ≡ true → most_states < states }
    ensures few { result ≡ false → states ≤ most_states }
{
    states > MOST_STATES
}
