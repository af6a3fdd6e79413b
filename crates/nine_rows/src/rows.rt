//! A row: its kind, a number, and words.

use crate::Stop;
use crate::connection::run_connection;
use crate::replies::run_reply;
use crate::stream::Stream;

/// Prints what comes of a row.
pub(crate) fn run_row<R: Print + AllocGlobal>(rt: &R, row: &str) -> Result<(), Stop> {
    println!(rt; "{row}")?;
    let kind = word(row, 0);
    if kind == "reply" {
        return run_reply(rt, row);
    }
    if kind == "connection" {
        return run_connection(rt, row);
    }
    let mut stream = Stream::new(rt.alloc(), number(word(row, 1)));
    for word in row.split(' ').skip(2) {
        let piece = bytes_of(rt, word)?;
        if kind == "bytes" {
            feed_each(rt, &mut stream, piece.as_slice())?;
        } else {
            stream.feed(rt, piece.as_slice())?;
        }
    }
    stream.print_end(rt)
}

// Feeds each byte as a piece of its own.
fn feed_each<R: Print + AllocGlobal>(
    rt: &R,
    stream: &mut Stream,
    piece: &[u8],
) -> Result<(), Stop> {
    for byte in piece {
        stream.feed(rt, &[*byte])?;
    }
    Ok(())
}

/// The word at this place, or none of its characters.
pub(crate) fn word(row: &str, place: usize) -> &str {
    row.split(' ').nth(place).unwrap_or("")
}

/// The number that a word has, or 0.
pub(crate) fn number(word: &str) -> u32 {
    word.parse::<u32>().unwrap_or(0)
}

/// The bytes of a word of hexadecimal digits. After a `*` it says how many times they come.
pub(crate) fn bytes_of<R: AllocGlobal>(rt: &R, word: &str) -> Result<Vec<u8>, Stop> {
    match word.split_once('*') {
        None => Ok(hex::decode(rt.alloc(), word)?),
        Some((digits, times)) => {
            let once = hex::decode(rt.alloc(), digits)?;
            let mut all = Vec::new(rt.alloc());
            for _ in 0..number(times) {
                all.extend_from_slice(once.as_slice())?;
            }
            Ok(all)
        }
    }
}
