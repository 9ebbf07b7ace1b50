// The codes that stand in a row.

// Places. ByUse and Parked are segment Main, so a row is in main where its code is below Probation's.
pub const BY_USE: u8 = 0;

pub const PARKED: u8 = 1;

pub const PROBATION: u8 = 2;

// A victim, until it is known whether there is room or until its row is overwritten; no state at rest has it.
pub const ASIDE: u8 = 3;

// Sources.
pub const VERIFIED: u8 = 0;

pub const HINT: u8 = 1;

// MTU marks.
pub const NO_MTU: u8 = 0;

pub const SOME_MTU: u8 = 1;
