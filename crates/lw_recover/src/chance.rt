// Chance from a fixed seed, in whole numbers, so that it is the same on every machine.

/// The generator, and how much chance counts.
#[derive(Clone, Copy)]
pub(crate) struct Chance {
    seed: u64,
    /// What one unit of noise weighs, in areas.
    heat: u64,
    /// What the heat is multiplied with from pass to pass, in parts of 2^32.
    factor: u64,
}

const SEED: u64 = 0x9e37_79b9_7f4a_7c15;

const STEP: u64 = 0xd134_2543_de82_ef95;

/// A part of time counts as a twentieth of that part of area.
const HURRY: u64 = 20;

/// How many units of noise more than its match a gate may take.
const ROOM: u64 = 8;

/// The natural logarithm of 2, in parts of 2^16.
const LN_2: u64 = 45_426;

/// The logarithm to base 2 of 1 + k / 256, in parts of 2^16, for k from 0 to 256.
static LOGS: [u32; 257] = [
    0, 369, 736, 1102, 1466, 1829, 2190, 2551, 2909, 3267, 3623, 3978, 4331, 4683, 5034, 5384,
    5732, 6079, 6425, 6769, 7112, 7454, 7795, 8134, 8473, 8810, 9146, 9480, 9814, 10146, 10477,
    10807, 11136, 11464, 11791, 12116, 12440, 12764, 13086, 13407, 13727, 14046, 14363, 14680,
    14996, 15310, 15624, 15937, 16248, 16559, 16868, 17177, 17484, 17791, 18096, 18401, 18704,
    19007, 19308, 19609, 19909, 20207, 20505, 20802, 21098, 21393, 21687, 21980, 22272, 22564,
    22854, 23144, 23433, 23720, 24007, 24293, 24579, 24863, 25146, 25429, 25711, 25992, 26272,
    26551, 26830, 27108, 27384, 27660, 27936, 28210, 28484, 28757, 29029, 29300, 29571, 29840,
    30109, 30378, 30645, 30912, 31178, 31443, 31707, 31971, 32234, 32496, 32758, 33019, 33279,
    33538, 33797, 34055, 34312, 34569, 34825, 35080, 35334, 35588, 35841, 36094, 36346, 36597,
    36847, 37097, 37346, 37595, 37842, 38090, 38336, 38582, 38827, 39072, 39316, 39559, 39802,
    40044, 40286, 40527, 40767, 41006, 41246, 41484, 41722, 41959, 42196, 42432, 42667, 42902,
    43137, 43370, 43603, 43836, 44068, 44300, 44530, 44761, 44990, 45220, 45448, 45676, 45904,
    46131, 46357, 46583, 46809, 47034, 47258, 47482, 47705, 47928, 48150, 48372, 48593, 48813,
    49034, 49253, 49472, 49691, 49909, 50127, 50344, 50560, 50776, 50992, 51207, 51422, 51636,
    51850, 52063, 52276, 52488, 52700, 52911, 53122, 53332, 53542, 53751, 53960, 54169, 54377,
    54584, 54791, 54998, 55204, 55410, 55615, 55820, 56025, 56229, 56432, 56635, 56838, 57040,
    57242, 57443, 57644, 57845, 58045, 58245, 58444, 58643, 58841, 59039, 59237, 59434, 59631,
    59827, 60023, 60219, 60414, 60609, 60803, 60997, 61190, 61384, 61576, 61769, 61961, 62152,
    62343, 62534, 62725, 62915, 63104, 63294, 63483, 63671, 63859, 64047, 64234, 64421, 64608,
    64794, 64980, 65166, 65351, 65536,
];

// The logarithm to base 2 of a number, in parts of 2^16; 0 at 0.
fn log_2(x: u64) -> u64 {
    if x == 0 {
        return 0;
    }
    let zeros = x.leading_zeros().min(63);
    let top = x << zeros;
    let place = (top >> 55 & 255) as usize;
    let part = top >> 39 & 65_535;
    let (low, high) = (LOGS[place] as u64, LOGS[place + 1] as u64);
    let whole = (63 - zeros as u64) * 65_536;
    let between = high.saturating_sub(low).saturating_mul(part) / 65_536;
    whole.saturating_add(low).saturating_add(between)
}

// A time or an area as a signed number.
fn signed(x: u64) -> i64 {
    x.min(i64::MAX as u64 / 4) as i64
}

impl Chance {
    pub(crate) fn new() -> Chance {
        Chance {
            seed: SEED,
            heat: 0,
            factor: 0,
        }
    }

    /// Begins a pass with a number.
    pub(crate) fn begin(&mut self, pass: u64) {
        self.seed = SEED ^ pass.wrapping_add(1).wrapping_mul(STEP);
    }

    /// Sets the heat of the first pass, and lets it fall to a fifth in so many passes.
    pub(crate) fn warm(&mut self, heat: u64, passes: u64) {
        self.heat = heat;
        // The natural logarithm of 5 in parts of 2^32, for each pass.
        let part = 6_912_482_958 / passes.saturating_sub(1).max(1);
        let part = part.min(0xffff_ffff);
        let square = part.saturating_mul(part) >> 32;
        let cube = square.saturating_mul(part) >> 32;
        self.factor = (0x1_0000_0000 - part)
            .saturating_add(square / 2)
            .saturating_sub(cube / 6);
    }

    /// Lets the heat fall by one pass.
    pub(crate) fn cool(&mut self) {
        let (high, low) = (self.heat >> 32, self.heat & 0xffff_ffff);
        let part = low.saturating_mul(self.factor) >> 32;
        self.heat = high.saturating_mul(self.factor).saturating_add(part);
    }

    /// How much more area than its match a gate may take.
    pub(crate) fn room(&self) -> u64 {
        self.heat.saturating_mul(ROOM)
    }

    fn random(&mut self) -> u64 {
        self.seed ^= self.seed << 13;
        self.seed ^= self.seed >> 7;
        self.seed ^= self.seed << 17;
        self.seed
    }

    /// Puts three numbers in an order of chance.
    pub(crate) fn shuffle(&mut self, all: &mut [u32; 3]) {
        let third = (self.random() % 3) as usize;
        let last = all[2];
        all[2] = all[third];
        all[third] = last;
        if self.random() % 2 == 0 {
            let first = all[0];
            all[0] = all[1];
            all[1] = first;
        }
    }

    // Noise in parts of 2^16, so distributed that the least of cost + heat * noise is each with the
    // chance exp(-cost / heat), but for a factor.
    fn noise(&mut self) -> i64 {
        let x = self.random() >> 11 | 1;
        let below = (53 * 65_536u64).saturating_sub(log_2(x));
        let below = (below.saturating_mul(LN_2) / 65_536).max(1);
        let log = signed(log_2(below)).saturating_sub(16 * 65_536);
        log.saturating_mul(LN_2 as i64) / 65_536
    }

    /// What a match with this area and arrival counts as, by chance: the least is taken.
    pub(crate) fn score(&mut self, area: u64, time: u64) -> i64 {
        let cost = signed(area).saturating_add(signed(time / HURRY));
        let noise = signed(self.heat).saturating_mul(self.noise()) / 65_536;
        cost.saturating_add(noise)
    }
}
