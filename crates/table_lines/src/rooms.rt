// The most bytes that each line of the table program has, and all its lines: words, commas, LF, and numbers of so many digits.
use write::{FIELD_ROOM, NUMBER_ROOM};

// The largest horizon of the table program.
pub const MAX_ROWS: u32 = 4096;

// `standings`, a field, LF.
const STANDINGS: usize = 9 + FIELD_ROOM + 1;

// `n,chance,by,left`, LF.
const HEADER: usize = 16 + 1;

// A number, three fields, LF.
const ROW: usize = NUMBER_ROOM + 3 * FIELD_ROOM + 1;

// `arl`, three fields, LF.
const ARL: usize = 3 + 3 * FIELD_ROOM + 1;

// `q`, a field, a comma, `between`, two fields, LF.
const PERCENT: usize = 1 + FIELD_ROOM + 1 + 7 + 2 * FIELD_ROOM + 1;

// All that the table program prints: the lines around its rows, the rows, and the lines of five percents.
pub const TABLE_ROOM: usize = STANDINGS + HEADER + ROW * (MAX_ROWS as usize) + ARL + 5 * PERCENT;
