// A reply's number, place and count as one word of 64 bits.
ghost use Rattle.std.specs.Prelude.{◌≡◌};
ghost use Rattle.amg_word.specs.Word.{packed, packed_of};

use refusal::{Refusal, number};

// The most that the count's 24 bits can tell: it stands for itself and all above.
const MOST: u64 = 16777215;

// The number in bits 0 to 7, the place in bits 8 to 23, the count in bits 40 to 63.
pub fn pack_of(number: u8, place: u16, count: u64) -> u64
    ensures { result ≡ packed_of number place count }
{
    u64::from(number) + 256 * u64::from(place) + 1099511627776 * count.min(MOST)
}

// The word of a reply: number and place are 0 where the call is done.
pub fn pack(refusal: Option<Refusal>, count: u64) -> u64
    ensures { result ≡ packed refusal count }
{
    let (number, place) = refusal.map_or((0, 0), |r| (number(r.reason), r.place));
    pack_of(number, place, count)
}
