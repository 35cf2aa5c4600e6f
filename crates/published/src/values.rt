// A book and a fabric as values: what a caller in another crate may do with them is proved here, and so stays so.
use bank::record::RecordBank;
use book::book::Book;
use book::session::Session;
use fabric::fabric::Fabric;
use std::mem;

// Takes the book by value.
fn has(book: Book, number: u16) -> bool {
    book.holds(number)
}

#[test]
fn book_is_copied(rt: HostRuntime) {
    let mut book = Book::new();
    let filled = book.fill_in(Session {
        number: 7,
        lane: 1,
        size: 4,
        weight: 9,
    });
    assert_eq!(rt; filled, Some(0));
    let kept = book;
    assert!(rt; book.release(7));
    assert!(rt; has(kept, 7));
    assert!(rt; !has(kept, 8));
    assert!(rt; !has(book, 7));
    assert!(rt; !has(book, 8));
}

#[test]
fn fabric_is_exchanged(rt: HostRuntime) {
    let mut bank = RecordBank::new(1);
    let mut fabric = Fabric::new();
    assert!(rt; fabric.start(&mut bank).is_ok());
    let mut started = mem::replace(&mut fabric, Fabric::new());
    assert!(rt; started.reserve(&mut bank, 1, 7, 20, &[0]).is_ok());
    assert!(rt; fabric.reserve(&mut bank, 2, 7, 20, &[0]).is_err());
}
