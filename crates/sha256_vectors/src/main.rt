// Prints the digest's answers for the messages that are published with FIPS 180-4, for runs of one octet at the edges of a block
// and up to the longest, and for what is refused. The file stdout has the published values, and for the runs those of
// Python's hashlib.
#![tactic(auto)]

use std::io;

// 32 octets in hex.
fn print_octets(rt: &impl Print, octets: &[u8]) -> io::Result<()> {
    for octet in octets {
        print!(rt; "{octet:02x}")?;
    }
    println!(rt)
}

// The digest, or the number of its refusal.
fn print_answer(rt: &impl Print, message: &[u8], out: &mut [u8]) -> io::Result<()> {
    match digest::digest(message, out) {
        Ok(_) => print_octets(rt, out),
        Err(refusal) => {
            let number = refusal.cause.number();
            println!(rt; "refused {number}")
        }
    }
}

fn print_message(rt: &impl Print, message: &[u8]) -> io::Result<()> {
    let mut out = [0u8; 32];
    print_answer(rt, message, &mut out)
}

// The first n of a run of one octet.
fn print_run(rt: &impl Print, run: &[u8], n: usize) -> io::Result<()> {
    print_message(rt, lent::part(run, 0, n))
}

fn main(rt: HostRuntime) -> io::Result<()> {
    print_message(&rt, b"")?;
    print_message(&rt, b"abc")?;
    print_message(
        &rt,
        b"abcdbcdecdefdefgefghfghighijhijkijkljklmklmnlmnomnopnopq",
    )?;
    print_message(
        &rt,
        b"abcdefghbcdefghicdefghijdefghijkefghijklfghijklmghijklmnhijklmnoijklmnopjklmnopqklmnopqrlmnopqrsmnopqrstnopqrstu",
    )?;
    let run = [b'a'; 65536];
    print_run(&rt, &run, 55)?;
    print_run(&rt, &run, 56)?;
    print_run(&rt, &run, 63)?;
    print_run(&rt, &run, 64)?;
    print_run(&rt, &run, 65)?;
    print_run(&rt, &run, 119)?;
    print_run(&rt, &run, 120)?;
    print_run(&rt, &run, 1000)?;
    print_run(&rt, &run, 65535)?;
    print_run(&rt, &run, 65536)?;
    let mut short = [0u8; 31];
    print_answer(&rt, b"abc", &mut short)
}
