// Ceiling anchors, for programs in other languages: a state's flag is a number, of which every one but 0 says that it is on.
ghost use Rattle.std.specs.Prelude.{◌≡◌};
ghost use Rattle.anchors.specs.Anchors.{state_after, NothingLost};
ghost use Rattle.anchors.specs.Claim.{after_all, AnchorClaim, column_readings};
ghost use Rattle.anchors.specs.Answers.{answered, state_left};
ghost use Rattle.export.specs.Interface.{state_of, state_numbers, anchored_numbers, read_numbers};

use crate::{AnchorState, Anchored, number};
use anchors::{Reading, State};

impl From<AnchorState> for State {
    ghost from_gives = { λ numbers state. state ≡ state_of numbers };

    fn from(numbers: AnchorState) -> State {
        State {
            x: numbers.x,
            y: numbers.y,
            seen: numbers.seen != 0,
        }
    }
}

impl From<State> for AnchorState {
    ghost from_gives = { λ state numbers. numbers ≡ state_numbers state };

    fn from(state: State) -> AnchorState {
        AnchorState {
            x: state.x,
            y: state.y,
            seen: u32::from(state.seen),
        }
    }
}

// What a reading answers, as numbers: a refusal with the very state that was handed in.
fn anchored_of(s: AnchorState, a: anchors::Anchored) -> Anchored
    ensures { result ≡ anchored_numbers s (answered a) (state_left a) }
{
    match a.place {
        Ok(p) => Anchored {
            refusal: 0,
            x: p.x.0,
            y: p.y.0,
            state: AnchorState::from(a.state),
        },
        Err(refusal) => Anchored {
            refusal: number(refusal),
            x: 0,
            y: 0,
            state: s,
        },
    }
}

// Reads an absolute place.
#[unsafe(no_mangle)]
pub extern "C" fn trails_anchor_absolute(s: AnchorState, x: f32, y: f32) -> Anchored
    ensures { (result ≡ read_numbers s (Reading.Absolute x y)) × NothingLost (state_of s) (Reading.Absolute x y) (state_after (state_of s) (Reading.Absolute x y)) }
{
    anchored_of(s, anchors::read(State::from(s), Reading::Absolute(x, y)))
}

// Reads a step from the last place.
#[unsafe(no_mangle)]
pub extern "C" fn trails_anchor_step(s: AnchorState, x: f32, y: f32) -> Anchored
    ensures { (result ≡ read_numbers s (Reading.Step x y)) × NothingLost (state_of s) (Reading.Step x y) (state_after (state_of s) (Reading.Step x y)) }
{
    anchored_of(s, anchors::read(State::from(s), Reading::Step(x, y)))
}

// Reads a list, whose columns say which readings are steps, and x and y of each; it is as long as the shortest.
#[unsafe(no_mangle)]
pub extern "C" fn trails_anchor_all(
    s: AnchorState,
    step: &[u8],
    xs: &[f32],
    ys: &[f32],
) -> AnchorState
    ensures { (result ≡ state_numbers (after_all (state_of s) (column_readings step.now xs.now ys.now))) × AnchorClaim (state_of s) (column_readings step.now xs.now ys.now) }
{
    AnchorState::from(anchors::read_all(State::from(s), step, xs, ys))
}
