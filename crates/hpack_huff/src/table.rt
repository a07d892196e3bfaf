//! The canonical code as tables, and the code that stands first in a window of bits.
ghost use Rattle.std.specs.Prelude.{◌≡◌, ◌*◌, ◌-◌, ◌<◌, ◌≤◌, ◌^◌};
ghost use Rattle.hpack_huff.specs.Code.{codes_with, first_code};
ghost use Rattle.hpack_huff.specs.inner.Window.{HasRank, IsFirst, IsShort, limit};

/// How many bits a window has.
pub const WINDOW: u32 = 40;

/// The end mark (EOS).
pub const END_MARK: u16 = 256;

// The symbols by rising length of their codes, within a length by rising symbol.
#[rattlefmt::skip]
static SYMBOLS: [u16; 257] = [
    48, 49, 50, 97, 99, 101, 105, 111, 115, 116, 32, 37, 45, 46, 47, 51,
    52, 53, 54, 55, 56, 57, 61, 65, 95, 98, 100, 102, 103, 104, 108, 109,
    110, 112, 114, 117, 58, 66, 67, 68, 69, 70, 71, 72, 73, 74, 75, 76,
    77, 78, 79, 80, 81, 82, 83, 84, 85, 86, 87, 89, 106, 107, 113, 118,
    119, 120, 121, 122, 38, 42, 44, 59, 88, 90, 33, 34, 40, 41, 63, 39,
    43, 124, 35, 62, 0, 36, 64, 91, 93, 126, 94, 125, 60, 96, 123, 92,
    195, 208, 128, 130, 131, 162, 184, 194, 224, 226, 153, 161, 167, 172, 176, 177,
    179, 209, 216, 217, 227, 229, 230, 129, 132, 133, 134, 136, 146, 154, 156, 160,
    163, 164, 169, 170, 173, 178, 181, 185, 186, 187, 189, 190, 196, 198, 228, 232,
    233, 1, 135, 137, 138, 139, 140, 141, 143, 147, 149, 150, 151, 152, 155, 157,
    158, 165, 166, 168, 174, 175, 180, 182, 183, 188, 191, 197, 231, 239, 9, 142,
    144, 145, 148, 159, 171, 206, 215, 225, 236, 237, 199, 207, 234, 235, 192, 193,
    200, 201, 202, 205, 210, 213, 218, 219, 238, 240, 242, 243, 255, 203, 204, 211,
    212, 214, 221, 222, 223, 241, 244, 245, 246, 247, 248, 250, 251, 252, 253, 254,
    2, 3, 4, 5, 6, 7, 8, 11, 12, 14, 15, 16, 17, 18, 19, 20,
    21, 23, 24, 25, 26, 27, 28, 29, 30, 31, 127, 220, 249, 10, 13, 22,
    256,
];

// By a number of bits, the first code of that length.
#[rattlefmt::skip]
static FIRST: [u64; 31] = [
    0, 0, 0, 0, 0, 0, 20, 92,
    248, 508, 1016, 2042, 4090, 8184, 16380, 32764,
    65534, 131068, 262136, 524272, 1048550, 2097116, 4194258, 8388568,
    16777194, 33554412, 67108832, 134217694, 268435426, 536870910, 1073741820,
];

// By a number of bits, the least window that is above all codes of at most that length.
#[rattlefmt::skip]
static LIMITS: [u64; 31] = [
    0x0000000000, 0x0000000000, 0x0000000000, 0x0000000000, 0x0000000000, 0x5000000000,
    0xb800000000, 0xf800000000, 0xfe00000000, 0xfe00000000, 0xff40000000, 0xffa0000000,
    0xffc0000000, 0xfff0000000, 0xfff8000000, 0xfffe000000, 0xfffe000000, 0xfffe000000,
    0xfffe000000, 0xfffe600000, 0xfffee00000, 0xffff480000, 0xffffb00000, 0xffffea0000,
    0xfffff60000, 0xfffff80000, 0xfffffbc000, 0xfffffe2000, 0xfffffff000, 0xfffffff000,
    0x10000000000,
];

// By a number of bits, how many symbols have a shorter code.
#[rattlefmt::skip]
static PLACES: [u64; 31] = [
    0, 0, 0, 0, 0, 0, 10, 36, 68, 74, 74, 79, 82, 84, 90, 92,
    95, 95, 95, 95, 98, 106, 119, 145, 174, 186, 190, 205, 224, 253, 253,
];

// By the first 8 bits, the symbol whose code they begin with, where it has at most 8 bits.
#[rattlefmt::skip]
static SHORT_SYMBOLS: [u8; 254] = [
    48, 48, 48, 48, 48, 48, 48, 48, 49, 49, 49, 49, 49, 49, 49, 49,
    50, 50, 50, 50, 50, 50, 50, 50, 97, 97, 97, 97, 97, 97, 97, 97,
    99, 99, 99, 99, 99, 99, 99, 99, 101, 101, 101, 101, 101, 101, 101, 101,
    105, 105, 105, 105, 105, 105, 105, 105, 111, 111, 111, 111, 111, 111, 111, 111,
    115, 115, 115, 115, 115, 115, 115, 115, 116, 116, 116, 116, 116, 116, 116, 116,
    32, 32, 32, 32, 37, 37, 37, 37, 45, 45, 45, 45, 46, 46, 46, 46,
    47, 47, 47, 47, 51, 51, 51, 51, 52, 52, 52, 52, 53, 53, 53, 53,
    54, 54, 54, 54, 55, 55, 55, 55, 56, 56, 56, 56, 57, 57, 57, 57,
    61, 61, 61, 61, 65, 65, 65, 65, 95, 95, 95, 95, 98, 98, 98, 98,
    100, 100, 100, 100, 102, 102, 102, 102, 103, 103, 103, 103, 104, 104, 104, 104,
    108, 108, 108, 108, 109, 109, 109, 109, 110, 110, 110, 110, 112, 112, 112, 112,
    114, 114, 114, 114, 117, 117, 117, 117, 58, 58, 66, 66, 67, 67, 68, 68,
    69, 69, 70, 70, 71, 71, 72, 72, 73, 73, 74, 74, 75, 75, 76, 76,
    77, 77, 78, 78, 79, 79, 80, 80, 81, 81, 82, 82, 83, 83, 84, 84,
    85, 85, 86, 86, 87, 87, 89, 89, 106, 106, 107, 107, 113, 113, 118, 118,
    119, 119, 120, 120, 121, 121, 122, 122, 38, 42, 44, 59, 88, 90,
];

// By the first 8 bits, how many bits that code has.
#[rattlefmt::skip]
static SHORT_LENGTHS: [u8; 254] = [
    5, 5, 5, 5, 5, 5, 5, 5, 5, 5, 5, 5, 5, 5, 5, 5, 5, 5, 5, 5, 5, 5, 5, 5, 5, 5, 5, 5, 5, 5, 5, 5,
    5, 5, 5, 5, 5, 5, 5, 5, 5, 5, 5, 5, 5, 5, 5, 5, 5, 5, 5, 5, 5, 5, 5, 5, 5, 5, 5, 5, 5, 5, 5, 5,
    5, 5, 5, 5, 5, 5, 5, 5, 5, 5, 5, 5, 5, 5, 5, 5, 6, 6, 6, 6, 6, 6, 6, 6, 6, 6, 6, 6, 6, 6, 6, 6,
    6, 6, 6, 6, 6, 6, 6, 6, 6, 6, 6, 6, 6, 6, 6, 6, 6, 6, 6, 6, 6, 6, 6, 6, 6, 6, 6, 6, 6, 6, 6, 6,
    6, 6, 6, 6, 6, 6, 6, 6, 6, 6, 6, 6, 6, 6, 6, 6, 6, 6, 6, 6, 6, 6, 6, 6, 6, 6, 6, 6, 6, 6, 6, 6,
    6, 6, 6, 6, 6, 6, 6, 6, 6, 6, 6, 6, 6, 6, 6, 6, 6, 6, 6, 6, 6, 6, 6, 6, 7, 7, 7, 7, 7, 7, 7, 7,
    7, 7, 7, 7, 7, 7, 7, 7, 7, 7, 7, 7, 7, 7, 7, 7, 7, 7, 7, 7, 7, 7, 7, 7, 7, 7, 7, 7, 7, 7, 7, 7,
    7, 7, 7, 7, 7, 7, 7, 7, 7, 7, 7, 7, 7, 7, 7, 7, 7, 7, 7, 7, 7, 7, 7, 7, 8, 8, 8, 8, 8, 8,
];

// How many values of 8 bits begin with a code of at most 8 bits: all that are lower.
const SHORT: u64 = 254;

// The least length of a code with more than 8 bits.
const LONG: u32 = 10;

/// A symbol and how many bits its code has.
#[derive(Clone, Copy)]
pub struct Found {
    pub symbol: u16,
    pub length: u32,
}

/// The one symbol with whose code the window begins.
pub fn find(window: u64) -> Found
    requires { window < 2 ^ 40 }
    ensures { IsFirst window result.symbol result.length }
{
    let top = window >> 32;
    if top < SHORT {
        find_short(top)
    } else {
        find_from(LONG, window)
    }
}

// By the first 8 bits alone.
fn find_short(top: u64) -> Found
    requires { top < SHORT }
    ensures { IsShort top result.symbol result.length }
{
    Found {
        symbol: u16::from(SHORT_SYMBOLS[top as usize]),
        length: u32::from(SHORT_LENGTHS[top as usize]),
    }
}

/// The same as `find` by length alone, where the code has at least that many bits.
fn find_from(mut length: u32, window: u64) -> Found
    requires in_table { 5 ≤ length × length ≤ 30 }
    requires fits { window < 2 ^ 40 }
    requires long { first_code length * 2 ^ (40 - length) ≤ window }
    ensures { IsFirst window result.symbol result.length }
{
    while window >= limit(length) {
        length += 1;
    }
    let code = window >> (WINDOW - length);
    let rank = code - first_code(length);
    Found {
        symbol: symbol_of(length, rank),
        length,
    }
}

// The least window that is above all codes of at most that length.
fn limit(length: u32) -> u64
    requires { length ≤ 30 }
    ensures { result ≡ limit length }
{
    LIMITS[length as usize]
}

// The first code of that length.
fn first_code(length: u32) -> u64
    requires { length ≤ 30 }
    ensures { result ≡ first_code length }
{
    FIRST[length as usize]
}

// The symbol with the code of that length and rank.
fn symbol_of(length: u32, rank: u64) -> u16
    requires in_table { length ≤ 30 }
    requires has_code { rank < codes_with length }
    ensures { HasRank result length rank }
{
    SYMBOLS[(rank + PLACES[length as usize]) as usize]
}
