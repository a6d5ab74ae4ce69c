// 02's tariff and the largest count by name, each number once on this side; specs/Charge.antt has the same.

// "The first 10,000 picks"
pub const FIRST_PICKS: u32 = 10000;

// "cost 40 thousandths each"
pub const FIRST_RATE: u64 = 40;

// "those after up to 100,000"
pub const NEXT_PICKS: u32 = 100000;

// "cost 30"
pub const NEXT_RATE: u64 = 30;

// "and the rest 20"
pub const LAST_RATE: u64 = 20;

// thousandths in the smallest credit: "divided by 1,000"
pub const CREDIT: u64 = 1000;

// "from 0 to 4,294,967,295"
pub const MAX_COUNT: u32 = 4294967295;
