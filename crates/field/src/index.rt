// An index of a table's names by their buckets, for a search by one name after another.
ghost use Rattle.field.specs.Index.{Blank};

use crate::{BUCKETS, Names, bucket_of, same_name};

impl<'a> Names<'a> {
    ghost use Rattle.std.specs.Prelude.{◌≡◌, ◌+◌, ◌<◌, ◌≤◌, true, length};
    ghost use Rattle.field.specs.Name.{name_bytes, names_ok, find_name};
    ghost use Rattle.field.specs.Index.{Indexed};

    // Each row's number, and one, in its name's bucket. Of rows that share a bucket the last is kept. Stays an array: there is no heap for a map.
    #[tactic(auto, using(crate::specs::Index::indexed_none, crate::specs::Index::indexed_more, crate::specs::Index::indexed_all), unfolding(crate::specs::Bucket::row_bucket))]
    pub fn index(&self) -> [u8; BUCKETS]
        requires { self.now.rows < 255 }
        ensures { Indexed self.now.table.now self.now.base self.now.stride self.now.rows result }
    {
        let mut index = [0u8; BUCKETS];
        for i in 0..self.rows {
            let bucket = bucket_of(self.table, self.place(i));
            index[bucket] = (i + 1) as u8;
        }
        index
    }

    // The search by name, where the names are distinct, with an index of them: where no row has the name's bucket none has the name; the row that is
    // kept there is looked at first. Stays by hand: there is no heap for a map.
    pub fn find_indexed(&self, index: &[u8], names: &[u8], at: usize) -> Option<usize>
        requires distinct { names_ok self.now.table.now self.now.base self.now.stride self.now.rows ≡ true }
        requires indexed { Indexed self.now.table.now self.now.base self.now.stride self.now.rows index.now }
        requires within { at + name_bytes ≤ length names.now }
        ensures { result ≡ find_name self.now.table.now self.now.base self.now.stride self.now.rows names.now at }
    {
        let k = index[bucket_of(names, at)] as usize;
        if k == 0 {
            return None;
        }
        if k <= self.rows && same_name(self.table, self.place(k - 1), names, at) {
            return Some(k - 1);
        }
        self.find(names, at)
    }
}

// An index of any table, which tells nothing: no table that is indexed has a row 254.
pub fn blank_index() -> [u8; BUCKETS]
    ensures { Blank result }
{
    [255u8; BUCKETS]
}
