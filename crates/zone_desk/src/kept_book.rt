//! The book in a box, so that it moves in and out of its place as one pointer.
ghost use Rattle.std.specs.Prelude.{◌≡◌, IfOk};

use solo_drive::Book;
use std::alloc::Global;
use std::marker::Model;
use zns_io::NoMemory;

/// A book on the heap, which contracts see as the book.
#[derive(Drop)]
pub struct KeptBook {
    pub(crate) book: Box<Book>,
}

impl Model for KeptBook {
    ghost use Rattle.drive_book.specs.declared.book.Book.{Book};

    ghost Value = { Book };

    ghost view = { λ k. k.book.value };
}

impl KeptBook {
    /// Puts a book on the heap.
    pub fn new(alloc: Global, book: Book) -> Result<KeptBook, NoMemory>
        ensures { IfOk result (λ k. k ≡ book) }
    {
        let Ok(book) = Box::new(alloc, book) else {
            return Err(NoMemory);
        };
        Ok(KeptBook { book })
    }

    /// Takes the book off the heap.
    pub fn into_book(self) -> Book
        ensures { result ≡ self }
    {
        let KeptBook { book } = self;
        Box::into_inner(book)
    }
}
