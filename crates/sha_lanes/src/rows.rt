//! Rows of bytes, filled with pieces of a message; where the parts begin; what is left of a piece; and bytes that are all
//! zeros.
ghost use Rattle.std.specs.Prelude.{◌≡◌, ℕ, ◌+◌, ◌-◌, ◌*◌, ◌<◌, ◌≤◌, ◌^◌, ◌++◌, List, length, slice_index, take, drop};
ghost use Rattle.std.specs.Prelude.{◌↔◌, ◌⊎◌, IfSome, IsSome, IsTrue, replicate};
ghost use Rattle.sha_lanes.specs.Lanes.{HoldsFrom, LiesIn};

/// How many bytes the consecutive blocks have whose schedules are made side by side: eight of 64, or four of 128.
pub(crate) const GROUP: usize = 512;

/// Puts those bytes of `piece` into the row that lie in it: the row begins at byte `at` of a message, and the piece at
/// byte `from`.
#[inline(always)]
pub(crate) fn put(row: &mut [u8], at: u128, piece: &[u8], from: u128)
    requires row_near { at < 2 ^ 127 }
    requires piece_near { from < 2 ^ 127 }
    ensures long { length row.new ≡ length row.old }
    ensures joined { (m : List ℕ) → length m ≡ from → HoldsFrom row.old m at → HoldsFrom row.new (m ++ piece.now) at }
{
    let first = if from < at { at } else { from };
    let row_end = at + row.len() as u128;
    let piece_end = from + piece.len() as u128;
    let last = if piece_end < row_end {
        piece_end
    } else {
        row_end
    };
    if first < last {
        let bytes = &piece[(first - from) as usize..(last - from) as usize];
        row[(first - at) as usize..(last - at) as usize].copy_from_slice(bytes);
    }
}

/// Where the part of each lane begins, in `total` bytes of parts of `len` bytes each. A lane without a message has the
/// last part.
#[inline(always)]
pub(crate) fn places_of(total: usize, len: usize) -> [usize; 8]
    requires { len ≤ total }
    ensures inside { (j : ℕ) → j < 8 → slice_index result j + len ≤ total }
    ensures own { (j : ℕ) → j < 8 → j * len + len ≤ total → slice_index result j ≡ j * len }
{
    let last = total - len;
    let b = len.min(last);
    let c = (b + len).min(last);
    let d = (c + len).min(last);
    let e = (d + len).min(last);
    let f = (e + len).min(last);
    let g = (f + len).min(last);
    let h = (g + len).min(last);
    [0, b, c, d, e, f, g, h]
}

/// The rest of the piece that begins at byte `from` of a message, from byte `at` of the message on, if `size` bytes are
/// left of it.
#[inline(always)]
fn rest_of(piece: &[u8], from: u128, at: u128, size: usize) -> Option<&[u8]>
    requires piece_near { from < 2 ^ 127 }
    requires near { at < 2 ^ 127 }
    ensures there { LiesIn size (length piece.now) from at → IsSome result }
    ensures bytes { IfSome result (λ bytes. (from ≤ at) × (at + size ≤ from + length piece.now)
        × (bytes.now ≡ drop (at - from) piece.now)) }
{
    if from <= at && at + size as u128 <= from + piece.len() as u128 {
        return Some(&piece[(at - from) as usize..]);
    }
    None
}

/// The rest of one of the three pieces of a message from byte `at` of the message on, if `size` bytes are left of it. A
/// block of a tree is the second piece or the third, so they are tried first.
#[inline(always)]
pub(crate) fn rest_in<'a>(
    first: &'a [u8],
    second: &'a [u8],
    third: &'a [u8],
    at: u128,
    size: usize,
) -> Option<&'a [u8]>
    requires { at < 2 ^ 127 }
    ensures there { LiesIn size (length first.now) 0 at ⊎ LiesIn size (length second.now) (length first.now) at
        ⊎ LiesIn size (length third.now) (length first.now + length second.now) at → IsSome result }
    ensures bytes { IfSome result (λ bytes. (size ≤ length bytes.now)
        × (at + length bytes.now ≤ length (first.now ++ second.now ++ third.now))
        × HoldsFrom bytes.now (first.now ++ second.now ++ third.now) at) }
{
    let start = first.len() as u128;
    let end = start + second.len() as u128;
    match rest_of(second, start, at, size) {
        Some(bytes) => Some(bytes),
        None => match rest_of(third, end, at, size) {
            Some(bytes) => Some(bytes),
            None => rest_of(first, 0, at, size),
        },
    }
}

/// Whether all bytes are zeros. No byte ends the loop early, so that it can go over many at once.
#[inline]
pub fn are_zeros(bytes: &[u8]) -> bool
    ensures { IsTrue result ↔ (bytes.now ≡ replicate (length bytes.now) 0) }
{
    let mut largest = 0;
    for i in 0..bytes.len() {
        largest = largest.max(bytes[i]);
    }
    largest == 0
}
