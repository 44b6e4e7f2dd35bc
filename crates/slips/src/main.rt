// Prints the pairs of characters that a check digit does not tell apart, in rising order of their codes in the entry, one line
// for each lower one. What is printed is held to the file stdout, which was worked out from Doc 9303-3 by a program that shares
// nothing with the library.
#![tactic(auto)]

mod list;

use lent::octet;
use list::{CODES, undetected};
use std::io;
use zone::codes::characters;

fn main(rt: HostRuntime) -> io::Result<()> {
    let pairs = undetected(10);
    slips(
        &rt,
        "One character for another, in one place",
        &pairs.numbers[..pairs.count],
    )?;
    println!(rt)?;
    let pairs = undetected(5);
    slips(
        &rt,
        "Two neighbours exchanged",
        &pairs.numbers[..pairs.count],
    )
}

// The pairs that one slip leaves undetected.
fn slips(rt: &impl Print, slip: &str, numbers: &[usize]) -> io::Result<()> {
    let count = numbers.len();
    print!(rt; "{slip}: not found of {count} pairs.")?;
    lines(rt, numbers)
}

fn lines(rt: &impl Print, numbers: &[usize]) -> io::Result<()> {
    let mut last = CODES;
    for number in numbers {
        pair(rt, *number, last)?;
        last = *number / CODES;
    }
    println!(rt)
}

// In a new line, unless the last one had the same lower character.
fn pair(rt: &impl Print, number: usize, last: usize) -> io::Result<()> {
    let by_code = characters();
    let lower = number / CODES;
    if lower == last {
        print!(rt; " ")?;
    } else {
        println!(rt)?;
    }
    let one = octet(&by_code, lower) as char;
    let other = octet(&by_code, number % CODES) as char;
    print!(rt; "{one}{other}")
}
