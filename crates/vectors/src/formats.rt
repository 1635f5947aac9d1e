// The families of sheets and of books. A record is bytes and changes of them: how many bytes, how many changes (u16 each), the bytes, and for each change how
// long the changed bytes are, where four of them are replaced (u16 each), those four, the refusal that they earn (u8), zero u8.
ghost use Rattle.std.specs.Prelude.{◌≡◌, ◌<◌, length, IfSome};

use crate::sample::{Rest, Tally};
use book::Book;
use laws::Refusal;
use laws::refusal::ACCEPTED;
use std::mem::swap;

// The most bytes of a record: the longest sheet, and one more.
const MOST: usize = 31725;

// Where a sheet says how many keys it has.
const KEY_COUNT: usize = 6;

// How many keys bytes that are to be a sheet say that it has.
fn key_count(bytes: &[u8]) -> Option<usize> {
    let mut rest = Rest { bytes };
    rest.take(KEY_COUNT)?;
    rest.count()
}

// Why bytes that are to be a sheet are declined.
pub fn sheet_refusal(bytes: &[u8]) -> Option<Refusal> {
    let n = key_count(bytes).unwrap_or(0);
    keys::check_load(bytes, n, n, n).err()
}

// Why bytes that are to be a book are declined.
pub fn book_refusal(bytes: &[u8]) -> Option<Refusal> {
    Book::new(bytes).err()
}

// A refusal as a sample stores it. Stays a number, 0 for none: the sample's own.
fn stored(refusal: Option<Refusal>) -> u8 {
    match refusal {
        Some(refusal) => refusal.number(),
        None => ACCEPTED,
    }
}

// Exchanges bytes with those at a place, as far as there is room. The same once more puts both back.
fn exchange(bytes: &mut [u8], place: usize, other: &mut [u8]) {
    if let Some(room) = bytes.get_mut(place..) {
        for (b, o) in room.iter_mut().zip(other) {
            swap(b, o);
        }
    }
}

// The record that the rest begins with. A change may be longer than the bytes: then what follows them in the sample goes on them.
// Stays an array: a Vec would only add a failure to each record. Each change is made in it, asked about and put back.
pub fn record<F: Fn(&[u8]) -> Option<Refusal>>(
    refusal_of: F,
    rest: &mut Rest,
    tally: &mut Tally,
) -> Option<()>
    requires { F.IsAlwaysCallable refusal_of }
    ensures { IfSome result (λ _. length rest.new.bytes.now < length rest.old.bytes.now) }
{
    let n = rest.count()?;
    let changes = rest.count()?;
    let mut bytes = [0u8; MOST];
    let there = rest.bytes.len().min(MOST);
    bytes[..there].copy_from_slice(&rest.bytes[..there]);
    rest.take(n)?;
    if n > MOST {
        return None;
    }
    for _ in 0..changes {
        let long = rest.count()?;
        let place = rest.count()?;
        let mut four = rest.next::<4>()?;
        let [refusal, _] = rest.next::<2>()?;
        exchange(&mut bytes, place, &mut four);
        let found = refusal_of(&bytes[..long.min(MOST)]);
        exchange(&mut bytes, place, &mut four);
        tally.count(stored(found) == refusal);
    }
    Some(())
}
