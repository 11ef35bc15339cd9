// From levels, which are logarithms and must not be added, to energies, which add up.
// The table is only a means: the contract states the rule, and no crate above sees an entry.
#![tactic(auto)]

ghost use Rattle.std.specs.Prelude.{◌≡◌};
ghost use Rattle.decibel.specs.Conversion.{convert_of};
ghost use Rattle.decibel.specs.Answer.{told_of};

// Whole decibels over the floor.
#[derive(Clone, Copy, Default)]
pub struct Level(pub u64);

// A thousand at level 0, and ten times as much for every ten decibels.
#[derive(Clone, Copy, Default)]
pub struct Energy(pub u64);

// A level above the highest has no energy.
#[derive(Clone, Copy, Debug, PartialEq, Eq)]
pub struct TooLoud;

// The highest level that a sounder gives, and the energy of a cell at it, which no cell passes.
pub const LOUDEST: u64 = 60;

pub const CELL_ENERGY: u64 = 1000000000;

const ENERGIES: [u64; 61] = [
    1000, 1258, 1584, 1995, 2511, 3162, 3981, 5011, 6309, 7943, 10000, 12589, 15848, 19952, 25118,
    31622, 39810, 50118, 63095, 79432, 100000, 125892, 158489, 199526, 251188, 316227, 398107,
    501187, 630957, 794328, 1000000, 1258925, 1584893, 1995262, 2511886, 3162277, 3981071, 5011872,
    6309573, 7943282, 10000000, 12589254, 15848931, 19952623, 25118864, 31622776, 39810717,
    50118723, 63095734, 79432823, 100000000, 125892541, 158489319, 199526231, 251188643, 316227766,
    398107170, 501187233, 630957344, 794328234, 1000000000,
];

// The energy of a level from 0 to 60; any other level is refused with 7.
pub fn convert(level: Level) -> Result<Energy, TooLoud>
    ensures { told_of result ≡ convert_of level.0 }
{
    let decibels = level.0;
    if LOUDEST < decibels {
        return Err(TooLoud);
    }
    let at = decibels as usize;
    Ok(Energy(ENERGIES[at]))
}
