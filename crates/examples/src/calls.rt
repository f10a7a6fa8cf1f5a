// 01's examples that are calls: the last two rows of 'Examples on both sides', and what 'Errors that look
// right' tells of. Each writes its answers in the order of its calls.
ghost use Rattle.std.specs.Prelude.{◌≡◌};
ghost use Rattle.format.specs.Answers.{done_number};

use format::answers::{Refusal, Success, number};
use format::{MOST, TEXT};
use record::Replica;
use script::{ROW, ROWS, TABLE};
use show::Hex;
use std::io;

// Writes what each case answers.
pub fn run(rt: &impl Print) -> io::Result<()> {
    show_texts(rt)?;
    show_full(rt)?;
    show_struck_by_two(rt)
}

// 48 and 49 bytes of text.
fn show_texts(rt: &impl Print) -> io::Result<()> {
    let mut table = [0u8; TABLE];
    let mut patch = [0u8; MOST];
    let text = [b'A'; TEXT + 1];
    let mut r = started(1, &mut table);
    let most = lent::insert(&mut r, &mut table, 0, 0, &text[..TEXT], &mut patch);
    let over = lent::insert(&mut r, &mut table, 0, 0, &text, &mut patch);
    println!(rt; "texts {} {}", edit_number(most), edit_number(over))
}

// 512 rows, insert; then delete, insert.
fn show_full(rt: &impl Print) -> io::Result<()> {
    let mut table = [0u8; TABLE];
    let mut patch = [0u8; MOST];
    let mut r = full(&mut table, &mut patch);
    let refused = lent::insert(&mut r, &mut table, 0, 0, b"", &mut patch);
    let struck = lent::delete(&mut r, &mut table, 0, &mut patch);
    let put = lent::insert(&mut r, &mut table, 0, 0, b"", &mut patch);
    println!(rt;
        "rows {} {} {}",
        edit_number(refused),
        edit_number(struck),
        edit_number(put)
    )
}

// A replica of site 1 with all rows in use, each put behind the last.
fn full(table: &mut [u8], patch: &mut [u8]) -> Replica {
    let mut r = started(1, table);
    for row in 0..ROWS {
        let _ = lent::insert(&mut r, table, row, 0, b"", patch);
    }
    r
}

// Striking by position alone: sites 2 and 3 strike (1,1) number 1; site 1 hears site 2, writes (1,1)
// number 2, then hears site 3. Number 2 stays. That the late delete was counted shows in the answer to
// site 3's next patch; and site 2, offered the struck line again, does not take it.
fn show_struck_by_two(rt: &impl Print) -> io::Result<()> {
    let mut first = [0u8; TABLE];
    let mut second = [0u8; TABLE];
    let mut third = [0u8; TABLE];
    let mut line = [0u8; MOST];
    let mut by_2 = [0u8; MOST];
    let mut by_3 = [0u8; MOST];
    let mut later = [0u8; MOST];
    let mut r_1 = started(1, &mut first);
    let mut r_2 = started(2, &mut second);
    let mut r_3 = started(3, &mut third);
    let put = lent::insert(&mut r_1, &mut first, 0, 0, b"one", &mut line);
    let line = front(&line, put);
    let struck_2 = strike(&mut r_2, &mut second, line, &mut by_2);
    let struck_3 = strike(&mut r_3, &mut third, line, &mut by_3);
    let heard_2 = lent::receive(&mut r_1, &mut first, front(&by_2, struck_2));
    let again = lent::insert(&mut r_1, &mut first, 0, 0, b"two", &mut later);
    let heard_3 = lent::receive(&mut r_1, &mut first, front(&by_3, struck_3));
    let next = lent::insert(&mut r_3, &mut third, 0, 0, b"three", &mut later);
    let heard_next = lent::receive(&mut r_1, &mut first, front(&later, next));
    let offered = lent::receive(&mut r_2, &mut second, line);
    print!(rt; "struck by two {} {}", number(heard_2), edit_number(again))?;
    println!(rt;
        " {} {} {}",
        number(heard_3),
        number(heard_next),
        number(offered)
    )?;
    show_rows(rt, &first)
}

// The first two rows of a table.
fn show_rows(rt: &impl Print, table: &[u8; TABLE]) -> io::Result<()> {
    println!(rt; "{}", Hex(&table[..2 * ROW]))
}

// A replica that is started as this site. A refusal would show in the next answer: a record of no host is never
// sound.
fn started(site: u32, table: &mut [u8]) -> Replica {
    let mut r = Replica::default();
    let _ = lent::start(&mut r, table, site);
    r
}

// Receives a line, and strikes the one in row 0.
fn strike(
    r: &mut Replica,
    table: &mut [u8],
    line: &[u8],
    patch: &mut [u8],
) -> Result<usize, Refusal> {
    let _ = lent::receive(r, table, line);
    lent::delete(r, table, 0, patch)
}

// The patch that an edit wrote at the front of a buffer: nothing, where it was refused.
fn front(buffer: &[u8], edited: Result<usize, Refusal>) -> &[u8] {
    &buffer[..edited.unwrap_or(0).min(buffer.len())]
}

// The number of an edit's answer.
fn edit_number(edited: Result<usize, Refusal>) -> u32
    ensures { result ≡ done_number edited }
{
    number(edited.map(|_| Success::Done))
}
