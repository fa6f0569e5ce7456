// How much of an input decides its sheet, and how much memory a sheet is made in.
use plant::MAX_STATES;
use rules::MAX_RULES;

// So many first bytes of an input decide what becomes of it: no plan is longer.
pub const INPUT_LENGTH: usize = 2048;

// The least number of bytes for the text: room for a line of each state of the largest plant.
pub const TEXT_LENGTH: usize = 8192;

// The number of rows: one for each state of the largest plant.
pub const ROW_COUNT: usize = MAX_STATES;

// The number of places for rules: as many as the draft of the largest plant may need.
pub const RULE_PLACES: usize = MAX_RULES;
