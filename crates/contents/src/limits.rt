// The numbers of document 01's section 'The score file', by the names that they have in specs/Limits.

pub const CONTENTS_SIZE: usize = 32;

pub const EVENT_SIZE: usize = 4;

pub const ITEM_SIZE: usize = 12;

pub const MESSAGE_SIZE: usize = 4;

// Of a duration and of a delay, in grains.
pub const LONGEST: usize = 5040000;

pub const MOST_EVENTS: usize = 256;

pub const MOST_ITEMS: usize = 2048;

pub const MOST_ACTIONS: usize = 1024;

pub const LAST_PART: usize = 15;

pub const DEEPEST: usize = 8;

pub const MOST_MESSAGES: usize = 512;

pub const MOST_TEXT: usize = 24576;

pub const LONGEST_LABEL: usize = 48;

// Of a whole file.
pub const LONGEST_SCORE: usize = 52256;
