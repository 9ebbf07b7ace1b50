// Why a call is refused. The numbers are what C and a line of text are told.
ghost use Rattle.std.specs.Prelude.{◌≡◌};
ghost use Rattle.types.specs.Values.{refusal_code};

#[derive(Clone, Copy, Debug, PartialEq, Eq)]
pub enum Refusal {
    // The lent memory is not a sound state.
    UnsoundState = 1,
    // The path has no element, or more than its places.
    PathLength,
    // The last stamps that a call might draw are not left.
    StampsSpent,
    // Main has no place for a verified insert.
    NoPlace,
    // These limits do not fit the memory's rows.
    BadLimits,
    // The command is unknown or cut, or its funding kind is none.
    BadCommand,
}

impl From<Refusal> for u8 {
    ghost from_gives = { λ refusal code. code ≡ refusal_code refusal };

    fn from(refusal: Refusal) -> u8 {
        refusal as u8
    }
}
