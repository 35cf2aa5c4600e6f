// Books as pictures. Each letter stands for four ranks in a row: those of the session that it names, or free ones at a dot.
use book::book::Book;
use book::session::Session;
use std::process::Abort;
use table::rank::{SLOTS, reverse};
use table::slot::Slot;

#[derive(Clone, Copy)]
enum Turn {
    // A book without sessions.
    New,
    // A book with so many sessions of eight ranks, from the letter a on.
    Eights(usize),
    // The session enters with so many ranks, from this rank on.
    Enter(u8, u8, usize),
    // It has no room for so many ranks.
    TooMany(u8, u8),
    // The session ends.
    Leave(u8),
    // So many ranks are free, and no more.
    Free(u8),
}

const TURNS: [(Turn, &'static str); 88] = [
    // Sessions enter from left to right, until the port is full.
    (Turn::New, "................"),
    (Turn::Free(64), "................"),
    (Turn::Enter(b'a', 8, 0), "aa.............."),
    (Turn::Enter(b'b', 8, 8), "aabb............"),
    (Turn::Enter(b'c', 8, 16), "aabbcc.........."),
    (Turn::Enter(b'd', 8, 24), "aabbccdd........"),
    (Turn::Enter(b'e', 8, 32), "aabbccddee......"),
    (Turn::Enter(b'f', 8, 40), "aabbccddeeff...."),
    (Turn::Enter(b'g', 8, 48), "aabbccddeeffgg.."),
    (Turn::Enter(b'h', 8, 56), "aabbccddeeffgghh"),
    (Turn::Free(0), "aabbccddeeffgghh"),
    (Turn::TooMany(b'i', 1), "aabbccddeeffgghh"),
    // Two that are not brothers end. The later one changes places with the brother of the earlier, and the two halves join.
    (Turn::Leave(b'c'), "aabb..ddeeffgghh"),
    (Turn::Leave(b'e'), "aabb....ddffgghh"),
    (Turn::Free(16), "aabb....ddffgghh"),
    (Turn::Enter(b'i', 16, 16), "aabbiiiiddffgghh"),
    // The same two in the other order: the free half is the other one.
    (Turn::Eights(8), "aabbccddeeffgghh"),
    (Turn::Leave(b'e'), "aabbccdd..ffgghh"),
    (Turn::Leave(b'c'), "aabbffdd....gghh"),
    // A smaller set becomes free to the right of a larger one. The larger one changes places with the set around the smaller.
    (Turn::Leave(b'h'), "aabbffddgg......"),
    (Turn::Free(24), "aabbffddgg......"),
    (Turn::Enter(b'i', 8, 40), "aabbffddggii...."),
    (Turn::Enter(b'j', 16, 48), "aabbffddggiijjjj"),
    // The same where the left half of that set becomes free: what is left free begins at ranks 32 and 48.
    (Turn::Eights(8), "aabbccddeeffgghh"),
    (Turn::Leave(b'e'), "aabbccdd..ffgghh"),
    (Turn::Leave(b'c'), "aabbffdd....gghh"),
    (Turn::Leave(b'g'), "aabbffdd..hh...."),
    (Turn::Enter(b'i', 8, 32), "aabbffddiihh...."),
    (Turn::Enter(b'j', 16, 48), "aabbffddiihhjjjj"),
    // Joining in two steps: free sets of eight at ranks 0 and 16 become one of sixteen, and with the one at 48 a free half.
    (Turn::Eights(6), "aabbccddeeff...."),
    (Turn::Leave(b'c'), "aabb..ddeeff...."),
    (Turn::Leave(b'a'), "ddbbeeff........"),
    (Turn::Free(32), "ddbbeeff........"),
    (Turn::Enter(b'i', 32, 32), "ddbbeeffiiiiiiii"),
    (Turn::Eights(6), "aabbccddeeff...."),
    (Turn::Leave(b'a'), "..bbccddeeff...."),
    (Turn::Leave(b'c'), "eeffbbdd........"),
    (Turn::Enter(b'i', 32, 32), "eeffbbddiiiiiiii"),
    // Free sets side by side that are not brothers do not join by themselves.
    (Turn::Eights(8), "aabbccddeeffgghh"),
    (Turn::Leave(b'b'), "aa..ccddeeffgghh"),
    (Turn::Leave(b'c'), "....aaddeeffgghh"),
    (Turn::Eights(8), "aabbccddeeffgghh"),
    (Turn::Leave(b'c'), "aabb..ddeeffgghh"),
    (Turn::Leave(b'b'), "aadd....eeffgghh"),
    // Brothers do, and nothing moves.
    (Turn::Eights(8), "aabbccddeeffgghh"),
    (Turn::Leave(b'c'), "aabb..ddeeffgghh"),
    (Turn::Leave(b'd'), "aabb....eeffgghh"),
    // Ordering free sets of four, sixteen and eight ranks, whichever of the last two is freed last.
    (Turn::New, "................"),
    (Turn::Enter(b'a', 4, 0), "a..............."),
    (Turn::Enter(b'i', 4, 4), "ai.............."),
    (Turn::Enter(b'b', 8, 8), "aibb............"),
    (Turn::Enter(b'c', 16, 16), "aibbcccc........"),
    (Turn::Enter(b'd', 8, 32), "aibbccccdd......"),
    (Turn::Enter(b'e', 8, 40), "aibbccccddee...."),
    (Turn::Enter(b'f', 16, 48), "aibbccccddeeffff"),
    (Turn::Leave(b'i'), "a.bbccccddeeffff"),
    (Turn::Leave(b'e'), "a.bbccccdd..ffff"),
    (Turn::Leave(b'c'), "a.bbdd......ffff"),
    (Turn::Free(28), "a.bbdd......ffff"),
    (Turn::New, "................"),
    (Turn::Enter(b'a', 4, 0), "a..............."),
    (Turn::Enter(b'i', 4, 4), "ai.............."),
    (Turn::Enter(b'b', 8, 8), "aibb............"),
    (Turn::Enter(b'c', 16, 16), "aibbcccc........"),
    (Turn::Enter(b'd', 8, 32), "aibbccccdd......"),
    (Turn::Enter(b'e', 8, 40), "aibbccccddee...."),
    (Turn::Enter(b'f', 16, 48), "aibbccccddeeffff"),
    (Turn::Leave(b'i'), "a.bbccccddeeffff"),
    (Turn::Leave(b'c'), "a.bb....ddeeffff"),
    (Turn::Leave(b'e'), "a.bbdd......ffff"),
    // Two books whose free sets have the same sizes at other ranks take the same sessions.
    (Turn::Enter(b'k', 8, 24), "a.bbddkk....ffff"),
    (Turn::Enter(b'm', 4, 4), "ambbddkk....ffff"),
    (Turn::TooMany(b'j', 32), "ambbddkk....ffff"),
    (Turn::Enter(b'n', 16, 32), "ambbddkknnnnffff"),
    (Turn::New, "................"),
    (Turn::Enter(b'a', 8, 0), "aa.............."),
    (Turn::Enter(b'b', 4, 8), "aab............."),
    (Turn::Enter(b'c', 4, 12), "aabc............"),
    (Turn::Enter(b'd', 8, 16), "aabcdd.........."),
    (Turn::Enter(b'e', 8, 24), "aabcddee........"),
    (Turn::Enter(b'f', 16, 32), "aabcddeeffff...."),
    (Turn::Leave(b'b'), "aa.cddeeffff...."),
    (Turn::Leave(b'd'), "aa.c..eeffff...."),
    (Turn::Free(28), "aa.c..eeffff...."),
    (Turn::Enter(b'k', 8, 16), "aa.ckkeeffff...."),
    (Turn::Enter(b'm', 4, 8), "aamckkeeffff...."),
    (Turn::TooMany(b'j', 32), "aamckkeeffff...."),
    (Turn::Enter(b'n', 16, 48), "aamckkeeffffnnnn"),
];

// The session of a letter. Each of its slots has weight 1.
fn session(letter: u8, size: u8) -> Session {
    Session {
        number: letter as u16,
        lane: letter % 16,
        size,
        weight: size as u16,
    }
}

fn eights(count: usize) -> Book {
    let mut book = Book::new();
    for letter in (b'a'..=b'h').take(count) {
        let _ = book.fill_in(session(letter, 8));
    }
    book
}

// Makes the turn, and answers whether the book answered as it should.
fn made(book: &mut Book, turn: Turn) -> bool {
    match turn {
        Turn::New => {
            *book = Book::new();
            true
        }
        Turn::Eights(count) => {
            *book = eights(count);
            true
        }
        Turn::Enter(letter, size, rank) => {
            book.fill_in(session(letter, size)) == Some(rank) && book.holds(letter as u16)
        }
        Turn::TooMany(letter, size) => !book.has_room(size as usize)
            && book.fill_in(session(letter, size)) == None,
        Turn::Leave(letter) => book.release(letter as u16) && !book.holds(letter as u16),
        Turn::Free(ranks) => book.has_room(ranks as usize) && !book.has_room(ranks as usize + 1),
    }
}

// What a slot holds under a letter.
fn under(letter: u8) -> Slot {
    match letter {
        b'.' => Slot::empty(),
        _ => Slot {
            lane: letter % 16,
            weight: 1,
        },
    }
}

// Whether the slots are those of the picture.
fn shows(table: &[Slot; SLOTS], picture: &[u8]) -> bool {
    table.iter().enumerate().all(|(slot, content)| {
        picture
            .get(reverse(slot) / 4)
            .is_some_and(|letter| *content == under(*letter))
    })
}

fn follow(rt: &impl Abort, turns: &[(Turn, &'static str)]) {
    let mut book = Book::new();
    for (k, (turn, picture)) in turns.iter().enumerate() {
        assert!(rt; made(&mut book, *turn), "{k}");
        assert!(rt; shows(&book.contents(), picture.as_bytes()), "{picture}");
    }
}

#[test]
fn turns(rt: HostRuntime) {
    follow(&rt, &TURNS);
}
