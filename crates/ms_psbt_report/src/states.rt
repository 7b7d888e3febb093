//! What the states of inputs have.
ghost use Rattle.std.specs.Prelude.{◌≡◌, ◌||◌, if◌then◌else◌};
ghost use Rattle.def_spend.specs.States.{is_read as the_is_read, is_sane as the_is_sane, is_final as the_is_final, is_ready};

use def_psbt_answer::Status;
use ms_input::State;

/// Whether an input in this state is Final or Ready: nothing more is wanted for it. Takes no memory.
pub fn is_settled(state: State) -> bool
    ensures { result ≡ (the_is_final state || is_ready state) }
{
    matches!(state, State::Final | State::Ready)
}

/// Done where nothing more is wanted for any input, else Open.
pub fn status_of(is_done: bool) -> Status
    ensures { result ≡ (if is_done then Status.Done else Status.Open) }
{
    if is_done { Status::Done } else { Status::Open }
}

/// Whether an input in this state is Final.
pub fn is_final(state: State) -> bool
    ensures { result ≡ the_is_final state }
{
    matches!(state, State::Final)
}

/// Whether the miniscript is told in this state.
pub fn is_read(state: State) -> bool
    ensures { result ≡ the_is_read state }
{
    match state {
        State::Unfit(_) => true,
        other => is_sane(other),
    }
}

/// Whether the miniscript is told in this state, and sane.
pub fn is_sane(state: State) -> bool
    ensures { result ≡ the_is_sane state }
{
    matches!(
        state,
        State::WrongSighash | State::TooMany | State::Unsatisfied | State::Ready
    )
}
