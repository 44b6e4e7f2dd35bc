// Prints sample texts of machine readable zones, each with what the library reads it as. The library does the reading. The
// samples stand in the file stdin, which says how. What is printed is held to the file stdout, which was worked out from
// document 01 by a program that shares nothing with the library.
#![tactic(auto)]

ghost use Rattle.std.specs.Prelude.{◌≤◌, length, IfOk};

mod print;

use lent::{octet, part};
use std::io;
use std::io::{Read, Write};

// The most that is read of the samples.
const MOST: usize = 65536;

fn main(rt: HostRuntime) -> io::Result<()> {
    let mut room = [0u8; MOST];
    let n = read_full(&mut rt.reader(), &mut room)?;
    let mut out = io::writer(&rt);
    out.write_all(b"Texts of machine readable zones, and what the library reads each as.\n")?;
    lines(&mut out, &room[..n])
}

// Reads until the range is full or the input ends, and answers how many octets were read.
fn read_full<R: Read>(input: &mut R, room: &mut [u8]) -> io::Result<usize>
    ensures { IfOk result (λ n. n ≤ length room.new) }
{
    let mut done = 0;
    while done < room.len() {
        let n = input.read(&mut room[done..])?;
        if n == 0 {
            return Ok(done);
        }
        done += n;
    }
    Ok(done)
}

// Every line, the last one too, ends in a line end.
fn lines<W: Write>(out: &mut W, samples: &[u8]) -> io::Result<()> {
    let mut start = 0;
    let mut titled = false;
    for (at, c) in samples.iter().enumerate() {
        if *c == b'\n' {
            titled = line(out, part(samples, start, at - start), titled)?;
            start = at + 1;
        }
    }
    Ok(())
}

// The line behind a title is a text, whatever it holds. Any other is a title, a remark or blank. Answers whether it is a title.
fn line<W: Write>(out: &mut W, line: &[u8], titled: bool) -> io::Result<bool> {
    if titled {
        print::sample(out, line)?;
        return Ok(false);
    }
    match octet(line, 0) {
        0 | b'#' => Ok(false),
        _ => {
            print::title(out, line)?;
            Ok(true)
        }
    }
}
