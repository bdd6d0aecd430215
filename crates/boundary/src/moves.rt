// What moving a hatch's points gives.
ghost use Rattle.std.specs.Prelude.{◌≡◌};
ghost use Rattle.boundary.specs.MoveBoundary.{move_answer};

use moved_hatch::MoveRefusal;

// The refusal's number or 0. No DWG bits are read, so the places are 0.
#[repr(C)]
#[derive(Clone, Copy)]
pub struct MoveAnswer {
    pub refusal: u64,
    pub place: usize,
    pub string_place: usize,
}

impl From<Result<(), MoveRefusal>> for MoveAnswer {
    ghost from_gives = { λ outcome answer. answer ≡ move_answer outcome };

    fn from(outcome: Result<(), MoveRefusal>) -> MoveAnswer {
        let refusal = match outcome {
            Ok(()) => 0,
            Err(refusal) => u64::from(u8::from(refusal)),
        };
        MoveAnswer {
            refusal,
            place: 0,
            string_place: 0,
        }
    }
}
