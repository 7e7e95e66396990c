// Plans of tempo maps, whose rows a fixed generator draws.
use std::alloc::{AllocError, Global};
use tempo::row::TempoRow;

// Rows lie 1 + 2 x (0 to gap) ticks apart, the last `after` ticks before the end. A quarter takes unit x (1 + (0 to spread))
// microseconds; where the map fades, the units are halved for each row since the last multiple of 24. In each row its tick
// is tried, the one after it, the last before the next row, and `between` more, none twice.
#[derive(Clone, Copy)]
pub struct Plan {
    pub division: u32,
    pub rows: u32,
    pub gap: u32,
    pub after: u32,
    pub unit: u32,
    pub spread: u32,
    pub fades: bool,
    pub between: u32,
    pub seed: u32,
}

// A plan on one line, its numbers in the order of the fields, as the outside program has them too.
type Row = (u32, u32, u32, u32, u32, u32, bool, u32, u32);

pub(crate) const PLANS: [Row; 14] = [
    (24, 1, 0, 4_799, 500_000, 0, false, 4_797, 1),
    (480, 1, 0, 48_001, 16_777_215, 0, false, 997, 2),
    (960, 1, 0, 960_001, 1, 0, false, 997, 3),
    (96, 2, 1_500, 2_401, 12_500, 79, false, 1_200, 4),
    (480, 2, 50, 101, 1, 16_777_214, false, 100, 5),
    (480, 7, 300, 0, 12_500, 79, false, 300, 6),
    (960, 7, 900, 1_001, 1, 16_777_214, true, 300, 7),
    (32_767, 7, 900, 5_001, 1, 16_777_214, true, 300, 8),
    (24, 300, 20, 41, 1, 16_777_214, false, 9, 9),
    (480, 300, 60, 1, 1, 16_777_214, true, 9, 10),
    (96, 1024, 9, 0, 1, 1_000_000, false, 2, 11),
    (960, 1024, 0, 1, 1, 16_777_214, false, 0, 12),
    (960, 1024, 152_000, 4_001, 12_500, 79, false, 2, 13),
    (32_767, 1, 0, 1_073_741_823, 2_636_637, 0, false, 997, 14),
];

impl From<Row> for Plan {
    fn from(row: Row) -> Plan {
        let (division, rows, gap, after, unit, spread, fades, between, seed) = row;
        Plan {
            division,
            rows,
            gap,
            after,
            unit,
            spread,
            fades,
            between,
            seed,
        }
    }
}

// The generator's states, two for each row: for its tempo, and for how far off the next row lies. A state's upper 31 bits
// are drawn.
#[derive(Drop)]
struct Generator {
    state: u64,
}

impl Generator {
    fn step(&mut self) -> u64 {
        self.state = self
            .state
            .wrapping_mul(6_364_136_223_846_793_005)
            .wrapping_add(1_442_695_040_888_963_407);
        self.state
    }
}

impl Iterator for Generator {
    type Item = (u64, u64);

    fn next(&mut self) -> Option<(u64, u64)> {
        Some((self.step(), self.step()))
    }
}

impl Plan {
    fn tempo(self, i: u32, state: u64) -> u32 {
        let units = 1 + (state >> 33) % (u64::from(self.spread) + 1);
        let units = if self.fades { units >> (i % 24) } else { units };
        self.unit.wrapping_mul(units.max(1) as u32)
    }

    fn step(self, state: u64) -> u32 {
        let half = (state >> 33) % (u64::from(self.gap) + 1);
        (1 + 2 * half) as u32
    }

    pub(crate) fn draw(self, heap: Global) -> Result<Vec<TempoRow>, AllocError> {
        let mut rows = Vec::new(heap);
        let mut tick: u32 = 0;
        let states = Generator {
            state: u64::from(self.seed),
        };
        for (i, (tempo, step)) in (0..self.rows).zip(states) {
            let q = self.tempo(i, tempo);
            rows.push(TempoRow { tick, q })?;
            tick = tick.wrapping_add(self.step(step));
        }
        Ok(rows)
    }
}
