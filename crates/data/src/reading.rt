// The parts of a portion that need no evaluation: its entries, its order, a number's sign and literal; and the data section's ends.
pub mod ends;
pub mod entries;
pub mod few;
pub mod heads;
pub mod numbers;
