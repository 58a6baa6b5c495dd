// The places of a session's words and the limits of its numbers, by the names that they have in specs/Layout.

pub const MEMORY_SIZE: usize = 8192;

pub const ROOM_SIZE: usize = 2048;

pub const MOST_SENT: u64 = 1024;

pub const MOST_EVENTS: u64 = 256;

pub const MOST_ITEMS: u64 = 2048;

pub const MOST_PARTS: u64 = 65535;

pub const MOST_TEMPO: u64 = 50400;

pub const MOST_GRACE: u64 = 630;

pub const MOST_MILLIS: u64 = 1000;

pub const CLOCK_END: u64 = 1000000000000000;

pub const MARK_AT: usize = 0;

pub const EVENT_COUNT_AT: usize = 1;

pub const ITEM_COUNT_AT: usize = 2;

pub const PARTS_AT: usize = 3;

pub const GRACE_AT: usize = 4;

pub const STARTS_AT: usize = 16;

pub const PAGE_AT: usize = 288;

pub const CLOCK_AT: usize = 2336;

pub const TEMPO_AT: usize = 2337;

pub const LAST_AT: usize = 2338;

pub const TOTAL_AT: usize = 2339;

pub const TAKEN_AT: usize = 2352;

pub const SLOTS_AT: usize = 2624;

pub const OUTCOMES_AT: usize = 4672;

pub const MARK: u64 = 5795973756931895857;
