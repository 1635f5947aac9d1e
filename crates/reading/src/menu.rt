// What a reading is made from: a sheet with its keys and a book, each checked once.
use book::Book;
use keys::Ready;

#[derive(Clone, Copy)]
pub struct Menu<'a> {
    pub ready: Ready<'a>,
    pub book: Book<'a>,
}
