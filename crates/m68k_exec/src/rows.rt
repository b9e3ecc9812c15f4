//! The instructions, one file a group of rows of the manual's table of instructions. Each stops where an access waits
//! for its answer, or where a word or long has an odd address, which is an address error.

// First digit 0.
pub mod bits;
pub mod immediates;
pub mod movep;

// First digits 1 to 3.
pub mod moves;

// First digit 4.
pub mod control;
pub mod links;
pub mod movem;
pub mod single;
pub mod status;

// First digits 5 and 6.
pub mod branches;
pub mod setting;

// First digits 7 to 9 and B to D, whose rows share their forms.
pub mod arithmetic;
pub mod comparisons;
pub mod multiprecision;
pub mod products;
pub mod quotients;
pub mod registers;

// First digit E.
pub mod shifts;
