// What a run that was broken off has left of its new files, and so what it had done.
ghost use Rattle.std.specs.Prelude.{◌≡◌};
ghost use Rattle.recovery.specs.Left.{left_of};

// How far a run came: it left nothing, what it had only begun, or its results in place and its state beside.
#[derive(Clone, Copy, PartialEq, Eq)]
pub enum Left {
    Nothing,
    Begun,
    Half,
}

// What is left, by which of the new files are there.
pub fn left_by(results_new: bool, state_new: bool) -> Left
    ensures { result ≡ left_of results_new state_new }
{
    if results_new {
        return Left::Begun;
    }
    if state_new {
        return Left::Half;
    }
    Left::Nothing
}
