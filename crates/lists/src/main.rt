//! Plays books and lists, and writes what a launch crew reads of them.

#![tactic(auto)]

use book::Book;
use listing::{Lines, extend, lookup};
use model::{Added, BackboneBlock, Block, Entry, Name, Parent, References, SideBlock};
use orders::{ByAuthor, BySonde, Order};
use profile::use_of;
use profile::uses::Use;
use std::io;

const GENESIS: Parent = Parent {
    view: 0,
    name: Name::GENESIS,
};

/// What stands in a place of a book before a block does.
const BLANK: Block = Block::Side(SideBlock {
    name: Name::GENESIS,
    author: 0,
    entry: Entry::Bind {
        sonde: 0,
        certificate: 0,
        flight: 0,
    },
    references: References::Empty,
});

/// The numbers that a generator draws, one after another, the last one drawn being kept.
#[derive(Drop)]
struct Draws(u64);

impl Iterator for Draws {
    type Item = u64;

    fn next(&mut self) -> Option<u64> {
        self.0 = (self.0 % 2147483648 * 1103515245 + 12345) % 2147483648;
        Some(self.0)
    }
}

/// The name of a block of the small books.
fn plain(number: u32) -> Name {
    Name {
        high: 0,
        low: u64::from(number),
    }
}

/// The name of a block of the season, whose order is not that of the numbers.
fn name(number: u32) -> Name {
    Name {
        high: u64::from(number % 4096 * 2731 % 4096),
        ..plain(number)
    }
}

fn bind(sonde: u32, certificate: u32, flight: u32) -> Entry {
    Entry::Bind {
        sonde,
        certificate,
        flight,
    }
}

fn release(sonde: u32, flight: u32) -> Entry {
    Entry::Release { sonde, flight }
}

fn parent(view: u32, name: Name) -> Parent {
    Parent { view, name }
}

fn side(name: Name, author: u32, entry: Entry, references: References) -> Block {
    Block::Side(SideBlock {
        name,
        author,
        entry,
        references,
    })
}

fn backbone(name: Name, view: u32, parent: Parent, references: References) -> Block {
    Block::Backbone(BackboneBlock {
        name,
        author: view % 4,
        view,
        parent,
        references,
    })
}

fn add(rt: &HostRuntime, book: &mut Book<'_>, block: Block) -> io::Result<()> {
    let number = block.name().low;
    match book.add(block) {
        Ok(Added::New) => println!(rt; "  block {number} is new"),
        Ok(Added::Held) => println!(rt; "  block {number} is held already"),
        Err(refusal) => {
            println!(rt;
                "  block {number} is refused by question {}",
                refusal.number()
            )
        }
    }
}

fn add_all(rt: &HostRuntime, book: &mut Book<'_>, blocks: &[Block]) -> io::Result<()> {
    for block in blocks {
        add(rt, book, *block)?;
    }
    Ok(())
}

fn show(rt: &HostRuntime, lines: &Lines<'_>) -> io::Result<()> {
    print!(rt; "  the list reads")?;
    for line in lines.as_slice() {
        print!(rt; " {}", line.low)?;
    }
    println!(rt; ".")
}

fn list_one<O: Order>(
    rt: &HostRuntime,
    book: &Book<'_>,
    target: Name,
    lines: &mut Lines<'_>,
) -> io::Result<()> {
    match extend::<O>(book, target, lines) {
        Ok((count, view)) => println!(rt; "  {count} lines more, view {view} listed"),
        Err(refusal) => println!(rt; "  nothing listed: question {}", refusal.number()),
    }
}

/// Lists for each target in turn, in the places lent.
fn list_for<O: Order>(
    rt: &HostRuntime,
    book: &Book<'_>,
    targets: &[Name],
    places: &mut [Name],
) -> io::Result<()> {
    let mut lines = Lines::over(places);
    for target in targets {
        list_one::<O>(rt, book, *target, &mut lines)?;
    }
    show(rt, &lines)
}

fn both_orders(rt: &HostRuntime, book: &Book<'_>, targets: &[Name]) -> io::Result<()> {
    println!(rt; " by author:")?;
    list_for::<ByAuthor>(rt, book, targets, &mut [Name::GENESIS; 16])?;
    println!(rt; " by sonde:")?;
    list_for::<BySonde>(rt, book, targets, &mut [Name::GENESIS; 16])
}

// A book takes places for blocks and for numbers: both are lent.
fn worked(rt: &HostRuntime) -> io::Result<()> {
    println!(rt; "S1, S3 that refers to it, and S4, listed for B5:")?;
    let mut blocks = [BLANK; 8];
    let mut index = [0u16; 8];
    let mut book = Book::over(&mut blocks, &mut index);
    let added = [
        side(plain(1), 2, bind(70, 501, 9), References::Empty),
        side(plain(3), 0, bind(60, 502, 9), References::One(plain(1))),
        side(plain(4), 1, bind(80, 503, 9), References::Empty),
        backbone(plain(5), 1, GENESIS, References::Two(plain(3), plain(4))),
    ];
    add_all(rt, &mut book, &added)?;
    both_orders(rt, &book, &[5, 5].map(plain))
}

fn diamond(rt: &HostRuntime) -> io::Result<()> {
    println!(rt; "A diamond, and side blocks reached from two backbone blocks:")?;
    let mut blocks = [BLANK; 16];
    let mut index = [0u16; 16];
    let mut book = Book::over(&mut blocks, &mut index);
    let added = [
        side(plain(10), 3, bind(7, 1, 1), References::Empty),
        side(plain(12), 1, bind(7, 2, 2), References::One(plain(10))),
        side(plain(11), 1, release(7, 1), References::One(plain(10))),
        side(
            plain(13),
            0,
            bind(5, 4, 4),
            References::Two(plain(11), plain(12)),
        ),
        side(plain(14), 0, bind(9, 5, 5), References::One(plain(12))),
        backbone(plain(20), 1, GENESIS, References::One(plain(13))),
        backbone(
            plain(21),
            3,
            parent(1, plain(20)),
            References::Two(plain(14), plain(12)),
        ),
        backbone(plain(22), 2, GENESIS, References::Empty),
    ];
    add_all(rt, &mut book, &added)?;
    both_orders(rt, &book, &[21, 21, 21, 22, 30, 20].map(plain))
}

fn full(rt: &HostRuntime) -> io::Result<()> {
    println!(rt; "A book of two places:")?;
    let mut blocks = [BLANK; 2];
    let mut index = [0u16; 8];
    let mut book = Book::over(&mut blocks, &mut index);
    let added = [
        side(plain(1), 0, bind(1, 1, 1), References::Empty),
        side(plain(2), 0, bind(1, 1, 1), References::One(plain(9))),
        backbone(plain(2), 1, GENESIS, References::One(plain(1))),
        side(plain(3), 0, bind(1, 1, 1), References::Empty),
        side(plain(3), 0, bind(1, 1, 1), References::One(plain(2))),
        side(plain(1), 0, bind(1, 1, 1), References::Empty),
        side(plain(1), 1, bind(1, 1, 1), References::Empty),
        side(plain(0), 1, bind(1, 1, 1), References::Empty),
        backbone(plain(4), 2, parent(1, Name::GENESIS), References::Empty),
    ];
    add_all(rt, &mut book, &added)?;
    let len = book.len();
    println!(rt; "  it holds {len} blocks")?;
    println!(rt; " a list of one place, then of two:")?;
    list_for::<ByAuthor>(rt, &book, &[plain(2)], &mut [Name::GENESIS; 1])?;
    list_for::<ByAuthor>(rt, &book, &[plain(2)], &mut [Name::GENESIS; 2])
}

fn tell(rt: &HostRuntime, book: &Book<'_>, lines: &Lines<'_>, sonde: u32) -> io::Result<()> {
    match use_of(book, lines, sonde) {
        Ok(
            Use::Convert {
                certificate,
                flight,
            },
        ) => {
            println!(rt; "  sonde {sonde}: convert with certificate {certificate}, flight {flight}")
        }
        Ok(Use::PassOver) => println!(rt; "  sonde {sonde}: pass over"),
        Err(refusal) => {
            println!(rt; "  sonde {sonde}: refused by question {}", refusal.number())
        }
    }
}

fn lookups(rt: &HostRuntime) -> io::Result<()> {
    println!(rt; "Sonde 70, a line more each time:")?;
    let mut blocks = [BLANK; 4];
    let mut index = [0u16; 4];
    let mut book = Book::over(&mut blocks, &mut index);
    let added = [
        side(plain(1), 0, bind(70, 501, 9), References::Empty),
        side(plain(2), 0, bind(70, 502, 10), References::Empty),
        side(plain(3), 0, release(70, 9), References::Empty),
        side(plain(4), 0, bind(70, 502, 10), References::Empty),
    ];
    add_all(rt, &mut book, &added)?;
    let mut places = [Name::GENESIS; 8];
    let mut lines = Lines::over(&mut places);
    tell(rt, &book, &lines, 70)?;
    for number in 1..6 {
        let _ = lines.push(plain(number));
        tell(rt, &book, &lines, 70)?;
    }
    for sonde in [71, 0, 268435456] {
        tell(rt, &book, &lines, sonde)?;
    }
    Ok(())
}

/// A side block among the forty before that number, if the number drawn hits one.
fn earlier(number: u32, draw: u64) -> Option<Name> {
    let back = (draw % 40) as u32 + 1;
    number
        .checked_sub(back)
        .filter(|found| found % 29 != 0)
        .map(name)
}

fn draw_references(number: u32, seed: u64) -> References {
    Draws(seed)
        .take(4)
        .filter_map(|draw| earlier(number, draw / 64))
        .fold(
            References::Empty,
            |found, name| found.with(name).unwrap_or(found),
        )
}

/// Every 29th block is a backbone block; the others are side blocks of 28 authors and 50 sondes.
fn drawn(number: u32, seed: u64) -> Block {
    let references = draw_references(number, seed);
    if number % 29 == 0 {
        let view = number / 29;
        let parent = if view <= 1 {
            GENESIS
        } else {
            parent(view - 1, name(number - 29))
        };
        return backbone(name(number), view, parent, references);
    }
    let author = (seed / 32 % 28) as u32;
    let sonde = (seed / 1024 % 50) as u32 + 1;
    let flight = (seed / 65536 % 9) as u32 + 1;
    let entry = if seed / 2097152 % 3 == 0 {
        release(sonde, flight)
    } else {
        bind(sonde, number, flight)
    };
    side(name(number), author, entry, references)
}

fn list_all<O: Order>(rt: &HostRuntime, book: &Book<'_>, target: Name) -> io::Result<()> {
    let mut places = [Name::GENESIS; 4096];
    let mut lines = Lines::over(&mut places);
    let calls = (0..200)
        .map(|_| extend::<O>(book, target, &mut lines))
        .take_while(|listed| matches!(listed, Ok((1.., _))))
        .count();
    let len = lines.len();
    let check = lines.as_slice().iter().fold(0, |check, line| {
        (check % 1000003 * 31 + line.low % 1000003) % 1000003
    });
    println!(rt; "  {calls} views listed, {len} lines, check number {check}")?;
    for sonde in 1..8 {
        tell(rt, book, &lines, sonde)?;
    }
    let held = lookup(book, &lines, 50).is_ok();
    println!(rt; "  sonde 50 is looked up: {held}")
}

fn season(rt: &HostRuntime) -> io::Result<()> {
    println!(rt; "A season of 4096 blocks:")?;
    let mut blocks = [BLANK; 4096];
    let mut index = [0u16; 4096];
    let mut book = Book::over(&mut blocks, &mut index);
    let mut draws = Draws(1);
    let new = (1..4097)
        .zip(&mut draws)
        .map(|(number, seed)| book.add(drawn(number, seed)))
        .filter(|added| *added == Ok(Added::New))
        .count();
    println!(rt; "  {new} are new")?;
    add(rt, &mut book, drawn(4096, draws.0))?;
    add(rt, &mut book, drawn(4097, 5))?;
    println!(rt; " by author:")?;
    list_all::<ByAuthor>(rt, &book, name(4089))?;
    println!(rt; " by sonde:")?;
    list_all::<BySonde>(rt, &book, name(4089))
}

fn main(rt: HostRuntime) -> io::Result<()> {
    worked(&rt)?;
    diamond(&rt)?;
    full(&rt)?;
    lookups(&rt)?;
    season(&rt)
}
