// What is sent: the rows of the annex's tables of examples. Numbers are written as the annex writes its times: a time is
// day_hhmmss, an announced one day_hhmm; the month is the sequence's.
pub(crate) const JULY: u8 = 7;

pub(crate) const OCTOBER: u8 = 10;

pub(crate) const DECEMBER: u8 = 12;

// A time, and the label of each label channel from then on.
#[derive(Clone, Copy)]
pub(crate) struct Row(pub u32, pub [u32; 4]);

// One day, in a time.
pub(crate) const DAY: u32 = 1_000_000;

// Flags, added to the announced time.
pub(crate) const MI: u32 = 1_000_000;

pub(crate) const PRF: u32 = 2_000_000;

pub(crate) const LUF: u32 = 4_000_000;

// Of a programme that is about to start, where MI is 1.
const CUE: u32 = MI + PRF;

// Nothing sent. A number, and no `None`: the tables are written as the annex writes them.
pub(crate) const OFF: u32 = 0;

// Service codes and no-specific-value: their day, hour and minute. No day has these hours; month 15 goes with them.
const RIT: u32 = 30_63;

const INT: u32 = 29_63;

const NSPV: u32 = 31_31_63;

const TABLE_E2: [Row; 11] = [
    Row(1_191410, [1_1840, OFF, OFF, OFF]),
    Row(1_191420, [RIT, OFF, OFF, OFF]),
    Row(1_191445, [PRF + 1_1915, OFF, OFF, OFF]),
    Row(1_191450, [PRF + 1_1915, OFF, OFF, OFF]),
    Row(1_191453, [PRF + 1_1915, OFF, OFF, OFF]),
    Row(1_191515, [1_1915, OFF, OFF, OFF]),
    Row(1_194235, [RIT, OFF, OFF, OFF]),
    Row(1_194305, [RIT, OFF, OFF, OFF]),
    Row(1_194319, [RIT, OFF, OFF, OFF]),
    Row(1_194330, [PRF + 1_1945, OFF, OFF, OFF]),
    Row(1_194400, [1_1945, OFF, OFF, OFF]),
];

const TABLE_E4: [Row; 11] = [
    Row(1_191410, [MI + 1_1840, OFF, OFF, OFF]),
    Row(1_191420, [MI + 1_1840, OFF, OFF, OFF]),
    Row(1_191445, [MI + 1_1840, CUE + 1_1915, OFF, OFF]),
    Row(1_191450, [OFF, CUE + 1_1915, OFF, OFF]),
    Row(1_191453, [OFF, CUE + 1_1915, OFF, OFF]),
    Row(1_191515, [OFF, MI + 1_1915, OFF, OFF]),
    Row(1_194235, [OFF, MI + 1_1915, OFF, OFF]),
    Row(1_194305, [MI + RIT, OFF, OFF, OFF]),
    Row(1_194319, [MI + RIT, OFF, OFF, OFF]),
    Row(1_194330, [CUE + 1_1945, OFF, OFF, OFF]),
    Row(1_194400, [MI + 1_1945, OFF, OFF, OFF]),
];

const TABLE_E6: [Row; 8] = [
    Row(2_123456, [2_1200, OFF, OFF, OFF]),
    Row(2_123530, [PRF + 2_1235, OFF, OFF, OFF]),
    Row(2_123550, [INT, PRF + NSPV, OFF, OFF]),
    Row(2_123600, [OFF, PRF + NSPV, OFF, OFF]),
    Row(2_123620, [OFF, NSPV, OFF, OFF]),
    Row(2_123715, [2_1235, OFF, OFF, OFF]),
    Row(2_123720, [2_1235, OFF, OFF, OFF]),
    Row(2_123745, [2_1235, OFF, OFF, OFF]),
];

const TABLE_E8: [Row; 9] = [
    Row(2_123456, [MI + 2_1200, OFF, OFF, OFF]),
    Row(2_123530, [MI + 2_1200, CUE + 2_1235, OFF, OFF]),
    Row(2_123550, [MI + 2_1200, MI + INT, CUE + NSPV, OFF]),
    Row(2_123555, [MI + 2_1200, OFF, CUE + NSPV, OFF]),
    Row(2_123600, [OFF, OFF, MI + NSPV, OFF]),
    Row(2_123620, [OFF, OFF, MI + NSPV, OFF]),
    Row(2_123715, [CUE + 2_1235, OFF, OFF, OFF]),
    Row(2_123720, [CUE + 2_1235, OFF, OFF, OFF]),
    Row(2_123745, [MI + 2_1235, OFF, OFF, OFF]),
];

const TABLE_E10: [Row; 10] = [
    Row(2_123456, [2_1200, OFF, OFF, OFF]),
    Row(2_123530, [INT, PRF + NSPV, OFF, OFF]),
    Row(2_123550, [OFF, PRF + NSPV, OFF, OFF]),
    Row(2_123600, [OFF, NSPV, OFF, OFF]),
    Row(2_123715, [OFF, PRF + 2_1235, OFF, OFF]),
    Row(2_123720, [OFF, PRF + 2_1235, OFF, OFF]),
    Row(2_123745, [OFF, 2_1235, OFF, OFF]),
    Row(2_123850, [PRF + 2_1200, 2_1235, OFF, OFF]),
    Row(2_123900, [OFF, 2_1235, OFF, OFF]),
    Row(2_123930, [OFF, 2_1235, OFF, OFF]),
];

const TABLE_E12: [Row; 7] = [
    Row(2_123456, [MI + 2_1200, OFF, OFF, OFF]),
    Row(2_123530, [CUE + NSPV, OFF, OFF, OFF]),
    Row(2_123535, [CUE + NSPV, OFF, OFF, OFF]),
    Row(2_123600, [MI + NSPV, OFF, OFF, OFF]),
    Row(2_123715, [CUE + 2_1235, OFF, OFF, OFF]),
    Row(2_123720, [CUE + 2_1235, OFF, OFF, OFF]),
    Row(2_123745, [MI + 2_1235, OFF, OFF, OFF]),
];

const TABLE_E14: [Row; 5] = [
    Row(2_140000, [2_1400, OFF, OFF, OFF]),
    Row(2_140404, [2_1400, OFF, OFF, OFF]),
    Row(2_140418, [MI + INT, OFF, OFF, OFF]),
    Row(2_140650, [PRF + 2_1400, OFF, OFF, OFF]),
    Row(2_140700, [2_1400, OFF, OFF, OFF]),
];

const TABLE_E18: [Row; 13] = [
    Row(2_210000, [MI + RIT, OFF, OFF, OFF]),
    Row(2_210005, [2_2100, OFF, OFF, OFF]),
    Row(2_210035, [LUF + 3_2229, OFF, OFF, OFF]),
    Row(2_210045, [MI + RIT, OFF, OFF, OFF]),
    Row(2_210055, [PRF + 2_2059, OFF, OFF, OFF]),
    Row(2_210115, [2_2059, OFF, OFF, OFF]),
    Row(2_210200, [MI + 2_2059, OFF, OFF, OFF]),
    Row(2_214500, [MI + RIT, OFF, OFF, OFF]),
    Row(3_200000, [MI + 3_2001, OFF, OFF, OFF]),
    Row(3_223020, [CUE + 3_2230, OFF, OFF, OFF]),
    Row(3_223050, [CUE + 3_2229, OFF, OFF, OFF]),
    Row(3_223120, [MI + 3_2229, OFF, OFF, OFF]),
    Row(3_225500, [MI + 3_2229, OFF, OFF, OFF]),
];

const TABLE_E20: [Row; 8] = [
    Row(17_222905, [RIT, OFF, OFF, OFF]),
    Row(17_222935, [PRF + 17_2228, OFF, OFF, OFF]),
    Row(17_223005, [17_2228, OFF, OFF, OFF]),
    Row(17_235920, [CUE + 18_0000, OFF, OFF, OFF]),
    Row(17_235935, [CUE + 18_0000, CUE + 17_2229, OFF, OFF]),
    Row(17_235950, [MI + 18_0000, CUE + 17_2229, OFF, OFF]),
    Row(18_000005, [OFF, MI + 17_2229, OFF, OFF]),
    Row(18_000020, [OFF, MI + 17_2229, OFF, OFF]),
];

const TABLE_E22: [Row; 18] = [
    Row(2_160006, [MI + RIT, OFF, OFF, OFF]),
    Row(2_160015, [MI + 2_1600, OFF, OFF, OFF]),
    Row(2_160045, [LUF + MI + 5_0123, OFF, OFF, OFF]),
    Row(2_160057, [CUE + 2_1559, OFF, OFF, OFF]),
    Row(2_160127, [MI + 2_1559, OFF, OFF, OFF]),
    Row(2_162010, [OFF, OFF, OFF, OFF]),
    Row(2_162040, [OFF, OFF, OFF, OFF]),
    Row(5_012300, [OFF, OFF, OFF, OFF]),
    Row(5_015800, [OFF, OFF, OFF, OFF]),
    Row(5_095950, [MI + 5_0123, OFF, OFF, OFF]),
    Row(5_100020, [LUF + MI + 5_1459, MI + 5_1000, OFF, OFF]),
    Row(5_100050, [OFF, MI + 5_1000, OFF, OFF]),
    Row(5_145940, [5_1430, CUE + 5_1500, OFF, OFF]),
    Row(5_145945, [OFF, CUE + 5_1500, OFF, OFF]),
    Row(5_145955, [OFF, CUE + 5_1500, CUE + 5_1459, CUE + 5_0123]),
    Row(5_150010, [OFF, MI + 5_1500, CUE + 5_1459, CUE + 5_0123]),
    Row(5_150015, [OFF, MI + 5_1500, CUE + 5_1459, CUE + 5_0123]),
    Row(5_150025, [OFF, OFF, MI + 5_1459, MI + 5_0123]),
];

const TABLE_E24: [Row; 19] = [
    Row(1_133000, [MI + 1_1330, OFF, OFF, OFF]),
    Row(1_135900, [MI + 1_1330, OFF, OFF, OFF]),
    Row(1_135940, [OFF, CUE + NSPV, OFF, OFF]),
    Row(1_140010, [OFF, MI + NSPV, OFF, OFF]),
    Row(1_140205, [OFF, CUE + 1_1400, OFF, OFF]),
    Row(1_140235, [OFF, MI + 1_1400, OFF, OFF]),
    Row(1_144540, [CUE + 1_1440, MI + 1_1400, OFF, OFF]),
    Row(1_144610, [MI + 1_1440, MI + INT, OFF, OFF]),
    Row(1_144615, [MI + 1_1440, OFF, OFF, OFF]),
    Row(1_145840, [MI + 1_1440, OFF, CUE + 1_1510, OFF]),
    Row(1_145850, [MI + INT, OFF, MI + 1_1510, OFF]),
    Row(1_145955, [OFF, OFF, MI + 1_1510, OFF]),
    Row(1_155000, [OFF, MI + 1_1400, OFF, OFF]),
    Row(1_155030, [OFF, MI + 1_1400, OFF, OFF]),
    Row(1_155050, [CUE + 1_1440, MI + 1_1400, CUE + 1_1510, OFF]),
    Row(1_155150, [CUE + 1_1440, MI + 1_1400, CUE + 1_1510, OFF]),
    Row(1_160410, [OFF, MI + 1_1400, OFF, CUE + 1_1600]),
    Row(1_160440, [OFF, OFF, OFF, 1_1600]),
    Row(1_160510, [OFF, OFF, OFF, 1_1600]),
];

const TABLE_E26: [Row; 14] = [
    Row(1_135900, [MI + 1_1330, OFF, OFF, OFF]),
    Row(1_135940, [MI + 1_1330, CUE + 1_1400, OFF, OFF]),
    Row(1_140010, [OFF, MI + 1_1400, OFF, OFF]),
    Row(1_140040, [OFF, MI + 1_1400, OFF, OFF]),
    Row(1_140205, [OFF, MI + 1_1400, CUE + NSPV, OFF]),
    Row(1_140235, [OFF, MI + 1_1400, MI + NSPV, OFF]),
    Row(1_144540, [CUE + NSPV, MI + 1_1400, MI + NSPV, OFF]),
    Row(1_144610, [MI + NSPV, MI + 1_1400, MI + INT, OFF]),
    Row(1_145840, [MI + NSPV, MI + 1_1400, OFF, CUE + NSPV]),
    Row(1_145940, [CUE + NSPV, MI + 1_1400, MI + NSPV, CUE + NSPV]),
    Row(1_155050, [CUE + NSPV, MI + 1_1400, MI + NSPV, CUE + NSPV]),
    Row(1_160410, [CUE + 1_1600, MI + 1_1400, MI + NSPV, OFF]),
    Row(1_160440, [MI + 1_1600, OFF, OFF, OFF]),
    Row(1_160510, [MI + 1_1600, OFF, OFF, OFF]),
];

// Without its last row, whose clock has gone back by an hour.
const TABLE_E28: [Row; 5] = [
    Row(28_020116, [28_0159, OFF, OFF, OFF]),
    Row(28_025830, [RIT, OFF, OFF, OFF]),
    Row(28_025900, [RIT, OFF, OFF, OFF]),
    Row(28_025915, [RIT, OFF, OFF, OFF]),
    Row(28_025945, [MI + 28_0200, OFF, OFF, OFF]),
];

pub(crate) fn rows_of(sequence: u8) -> &'static [Row] {
    match sequence {
        1 => &TABLE_E2,
        2 => &TABLE_E4,
        3 => &TABLE_E6,
        4 => &TABLE_E8,
        5 => &TABLE_E10,
        6 => &TABLE_E12,
        7 => &TABLE_E14,
        9 => &TABLE_E18,
        10 => &TABLE_E20,
        11 => &TABLE_E22,
        12 => &TABLE_E24,
        13 => &TABLE_E26,
        14 => &TABLE_E28,
        _ => &[],
    }
}
