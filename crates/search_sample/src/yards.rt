// The yards that are tried, as tables of sections and turns.

// Yard Y of document 01: six points, and the turn between sections 1 and 2.
pub const YARD_Y: [u32; 30] = [
    0, 1, 3000, 1, 3000, 3000, 1, 2, 400, 0, 400, 400, 1, 3, 500, 0, 500, 500, 2, 4, 2000, 1, 100,
    1300, 3, 5, 2500, 1, 2500, 2500,
];

// Document 01's three points in a line.
pub const LINE: [u32; 12] = [0, 1, 1000, 1, 700, 100, 1, 2, 900, 1, 900, 900];

// The yard of document 003's examples, in decimetres: 22 points, the sections e1 to e14 and e16 to e25 in this order.
pub const PAPER: [u32; 144] = [
    0, 2, 1570, 1, 1570, 1570, 1, 3, 1500, 1, 1500, 1500, 4, 6, 200, 1, 200, 200, 7, 9, 2800, 1,
    2800, 2800, 8, 10, 2590, 1, 2590, 2590, 5, 16, 7270, 1, 7270, 7270, 11, 12, 400, 1, 400, 400,
    13, 18, 1390, 1, 1390, 1390, 14, 15, 3020, 1, 3020, 3020, 19, 21, 2360, 1, 2360, 2360, 17, 20,
    5230, 1, 5230, 5230, 2, 5, 730, 0, 730, 730, 3, 5, 850, 0, 850, 850, 3, 4, 800, 0, 800, 800, 6,
    7, 340, 0, 340, 340, 6, 8, 410, 0, 410, 410, 9, 11, 340, 0, 340, 340, 10, 11, 400, 0, 400, 400,
    12, 13, 380, 0, 380, 380, 12, 14, 410, 0, 410, 410, 15, 17, 360, 0, 360, 360, 16, 17, 400, 0,
    400, 400, 18, 19, 330, 0, 330, 330, 18, 20, 600, 0, 600, 600,
];

pub const PAPER_TURNS: [u32; 14] = [11, 12, 12, 13, 14, 15, 16, 17, 18, 19, 20, 21, 22, 23];

// Two ways lead to point 3. The shorter, over section 1, may not go on over section 4, and nothing is long enough to pull out.
pub const TWO_WAYS: [u32; 36] = [
    0, 1, 3000, 1, 2000, 0, 1, 3, 100, 0, 100, 100, 1, 2, 100, 0, 100, 100, 2, 3, 100, 0, 100, 100,
    3, 4, 500, 0, 500, 500, 4, 5, 2000, 1, 2000, 2000,
];

// Section 3 leads from the end of section 0 back to the far end of section 2, onto which a train from section 1 reverses.
pub const LOOP: [u32; 42] = [
    0, 1, 300, 0, 300, 300, 0, 3, 100, 0, 100, 100, 0, 2, 200, 0, 200, 200, 1, 2, 300, 0, 300, 300,
    3, 4, 2000, 1, 0, 1000, 2, 5, 50, 0, 50, 50, 5, 6, 2000, 1, 2000, 2000,
];

// Of the two tracks beyond section 3, the one with the lower number is too short to pull out on.
pub const BRANCHES: [u32; 42] = [
    0, 1, 2000, 1, 1000, 0, 1, 2, 100, 0, 100, 100, 2, 3, 200, 0, 200, 200, 2, 4, 300, 0, 300, 300,
    4, 5, 100, 0, 100, 100, 4, 6, 900, 0, 900, 900, 3, 7, 1500, 1, 1500, 1500,
];
