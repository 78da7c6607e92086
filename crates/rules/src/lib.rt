// Document 01, "Why a model comes back" and its tables: the refusals by name, and every limit as one constant.
// The same limits stand in specs/Limits.antt, where the definition reads them.
#![tactic(auto)]

ghost use Rattle.std.specs.Prelude.{◌≡◌};
ghost use Rattle.rules.specs.Refusals.{refusal_number};

// Why a model comes back, in the order of document 01's table.
#[derive(Clone, Copy, Debug, PartialEq, Eq)]
pub enum Refusal {
    LongText = 1, // 1: text above 16,384 bytes
    StrangeByte, // 2: a byte that starts no token or may not stand in a string
    Misplaced, // 3: a misshapen or misplaced token
    BadName, // 4: a name too long, unknown, or declared again
    Unfit, // 5: a value that doesn't fit
    Full, // 6: a table full
    BadIndex, // 7: an index unbound, bound already, or a fifth bound; an order or marks that are no rearrangement
    NotWhole, // 8: a limit, subscript or integer datum not whole; a run above 256
    Outside, // 9: a subscript or fixed entry outside the domain
    Missing, // 10: a value missing, given twice, or one number too many
    LongListing, // 11: listing longer than the buffer
}

// A refusal, and its place in the text.
#[derive(Clone, Copy, Debug, PartialEq, Eq)]
pub struct Refused {
    pub refusal: Refusal,
    pub place: u64,
}

// The refusal of this name at a place, as the `Err` of a result.
#[macro_export]
macro_rules! refused {
    ($refusal:ident, $place:expr) => {
        Err($crate::Refused {
            refusal: $crate::Refusal::$refusal,
            place: $place,
        })
    };
}

// A text's bytes, and its tokens before `INIT` or `CLOSE`.
pub const BYTE_LIMIT: usize = 16384;

pub const TOKEN_LIMIT: usize = 4096;

// The bytes of a name, and those between the braces of a string.
pub const NAME_LENGTH: usize = 15;

pub const STRING_LENGTH: usize = 60;

// A literal's digits before its power of ten, and those of the power; a value's mantissa, either side of zero, and its scale.
pub const DIGIT_LIMIT: usize = 18;

pub const POWER_DIGITS: usize = 2;

pub const MANTISSA_LIMIT: u64 = 999999999;

pub const SCALE_LIMIT: usize = 6;

// Tables: names, constraints, data elements, variables, rows.
pub const NAME_LIMIT: usize = 64;

pub const CONSTRAINT_LIMIT: usize = 64;

pub const DATA_LIMIT: usize = 2048;

pub const VARIABLE_LIMIT: usize = 512;

pub const ROW_LIMIT: usize = 512;

// Brackets open at once, the elements of a run, the indices of a list, a domain or a scope.
pub const NESTING_LIMIT: usize = 12;

pub const RUN_LIMIT: usize = 256;

pub const INDEX_LIMIT: usize = 4;

// Document 01's number of a refusal.
impl From<Refusal> for u32 {
    ghost from_gives = { λ r n. n ≡ refusal_number r };

    fn from(r: Refusal) -> u32 {
        r as u32
    }
}
