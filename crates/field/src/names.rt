// The names of a table's rows: fields of 24 bytes in a lent slice.
ghost use Rattle.std.specs.Prelude.{◌≡◌, ◌+◌, ◌≤◌, true, false, length};
ghost use Rattle.laws.specs.Below.{Passed};
ghost use Rattle.field.specs.Name.{name_bytes, same_byte, same_name, Fields};

use crate::{BUCKETS, bucket_of, empty_name, same_name, word_at};

// Whether two fields begin with the same eight bytes.
// Stays apart from `same_tail`: an equal head tells of eight bytes alone, an equal tail of the whole name where the bytes before it are equal.
fn same_head(s: &[u8], i: usize, t: &[u8], j: usize) -> bool
    requires first { i + name_bytes ≤ length s.now }
    requires second { j + name_bytes ≤ length t.now }
    ensures other { result ≡ false → same_name s.now i t.now j ≡ false }
    ensures same { result ≡ true → Passed name_bytes (same_byte s.now i t.now j) 8 }
{
    word_at(s, i) == word_at(t, j)
}

// Whether two fields end with the same eight bytes. Stays apart from `same_head`: equal, it tells of the whole name where the bytes before are equal.
fn same_tail(s: &[u8], i: usize, t: &[u8], j: usize) -> bool
    requires first { i + name_bytes ≤ length s.now }
    requires second { j + name_bytes ≤ length t.now }
    ensures other { result ≡ false → same_name s.now i t.now j ≡ false }
    ensures same { result ≡ true → Passed name_bytes (same_byte s.now i t.now j) 16 → same_name s.now i t.now j ≡ true }
{
    word_at(s, i + 16) == word_at(t, j + 16)
}

// The first name stands at `base`, and the next each `stride` bytes on.
#[derive(Clone, Copy)]
pub struct Names<'a> {
    pub table: &'a [u8],
    pub base: usize,
    pub stride: usize,
    pub rows: usize,
    pub ghost fields: { Fields table.now base stride rows },
}

impl<'a> Names<'a> {
    ghost use Rattle.std.specs.Prelude.{◌≡◌, ◌+◌, ◌*◌, ◌<◌, ◌≤◌, true, false, length};
    ghost use Rattle.laws.specs.Below.{all_below};
    ghost use Rattle.field.specs.Name.{name_bytes, row_named, other_name, name_ok, names_ok, find_name};

    // Where row i's name stands. The bound is part of the contract, so that reading the name closes at the caller.
    pub fn place(&self, i: usize) -> usize
        requires { i < self.now.rows }
        ensures place { result ≡ self.now.base + i * self.now.stride }
        ensures within { result + name_bytes ≤ length self.now.table.now }
    {
        self.base + i * self.stride
    }

    // Whether row j has another name than row i.
    #[tactic(auto, unfolding(crate::specs::Name::other_name))]
    fn differs(&self, i: usize, j: usize) -> bool
        requires first { i < self.now.rows }
        requires second { j < self.now.rows }
        ensures { result ≡ other_name self.now.table.now self.now.base self.now.stride i j }
    {
        !same_name(self.table, self.place(j), self.table, self.place(i))
    }

    #[tactic(auto, unfolding(laws::specs::Below::all_below))]
    fn is_fresh(&self, i: usize) -> bool
        requires { i < self.now.rows }
        ensures { result ≡ all_below i (other_name self.now.table.now self.now.base self.now.stride i) }
    {
        (0..i).all(|j| self.differs(i, j))
    }

    // `seen`: an earlier row has row i's bucket. Where none has, none has the name, and none is compared.
    #[tactic(auto, unfolding(crate::specs::Name::name_ok))]
    fn name_ok(&self, i: usize, seen: bool) -> bool
        requires row { i < self.now.rows }
        requires unseen { seen ≡ false → all_below i (other_name self.now.table.now self.now.base self.now.stride i) ≡ true }
        ensures { result ≡ name_ok self.now.table.now self.now.base self.now.stride i }
    {
        !empty_name(self.table, self.place(i)) && (!seen || self.is_fresh(i))
    }

    // Whether the names are distinct and not empty. The buckets seen so far spare most comparisons. Stays an array: there is no heap for a set.
    #[tactic(auto, using(laws::specs::Below::passed_more, laws::specs::Below::passed_not, laws::specs::Below::passed_all), unfolding(crate::specs::Name::names_ok, crate::specs::Bucket::row_bucket))]
    pub fn are_distinct(&self) -> bool
        ensures { result ≡ names_ok self.now.table.now self.now.base self.now.stride self.now.rows }
    {
        let mut seen = [false; BUCKETS];
        for i in 0..self.rows {
            let bucket = bucket_of(self.table, self.place(i));
            if !self.name_ok(i, seen[bucket]) {
                return false;
            }
            seen[bucket] = true;
        }
        true
    }

    // The first row that has the name at `at` of another slice. Stays a labelled search: there is no heap for a HashMap.
    // Eight bytes at each end are one comparison each, which most rows fail; the bytes between are compared one by one.
    #[tactic(auto, using(laws::specs::First::missed_none, laws::specs::First::missed_all, laws::specs::First::missed_at), unfolding(crate::specs::Name::find_name, crate::specs::Name::row_named))]
    pub fn find(&self, names: &[u8], at: usize) -> Option<usize>
        requires { at + name_bytes ≤ length names.now }
        ensures { result ≡ find_name self.now.table.now self.now.base self.now.stride self.now.rows names.now at }
    {
        let mut found = None;
        'rows: for i in 0..self.rows {
            let place = self.place(i);
            if !same_head(self.table, place, names, at) {
                continue 'rows;
            }
            if !same_tail(self.table, place, names, at) {
                continue 'rows;
            }
            'bytes: for k in 8..16 {
                if self.table[place + k] != names[at + k] {
                    continue 'rows;
                }
            }
            found = Some(i);
            break 'rows;
        }
        found
    }
}
