// Lent octets, read and filled without a condition: whatever is asked for past the end is simply not there.
#![tactic(auto)]

ghost use Rattle.std.specs.Prelude.{◌≡◌, length, take, drop, get_or, set, replicate};
ghost use Rattle.lent.specs.Copied.{copied, copied_at};
ghost use Rattle.lent.specs.Octets as Octets;

// The octet at a place, 0 past the end.
pub fn octet(s: &[u8], at: usize) -> u8
    ensures { result ≡ get_or s.now at 0 }
{
    s.get(at).copied().unwrap_or(0)
}

// The n octets from a place on, as a part of what was lent: fewer where it ends before.
pub fn part(s: &[u8], at: usize, n: usize) -> &[u8]
    ensures { result.now ≡ take n (drop at s.now) }
{
    let behind = s.get(at..).unwrap_or(&[]);
    behind.get(..n).unwrap_or(behind)
}

// The same octets.
pub fn alike(a: &[u8], b: &[u8]) -> bool
    ensures { result ≡ Octets.alike a.now b.now }
{
    a == b
}

// Whether an octet stands among others.
pub fn stands(c: u8, s: &[u8]) -> bool
    ensures { result ≡ Octets.stands c s.now }
{
    s.contains(&c)
}

// The first octets of a range become those of another, as many as both have.
pub fn copy(to: &mut [u8], from: &[u8])
    ensures { to.new ≡ copied to.old from.now }
{
    let n = to.len().min(from.len());
    // Often there is nothing to copy, as of data that few documents have: so no call for nothing.
    if 0 < n {
        to[..n].copy_from_slice(&from[..n]);
    }
}

// The same from a place on. Past the end there is nothing to change.
pub fn copy_at(to: &mut [u8], at: usize, from: &[u8])
    ensures { to.new ≡ copied_at to.old at from.now }
{
    if at <= to.len() {
        copy(&mut to[at..], from);
    }
}

// One octet of a range becomes another. Past the end there is nothing to change.
pub fn put(to: &mut [u8], at: usize, c: u8)
    ensures { to.new ≡ set to.old at c }
{
    if at < to.len() {
        to[at] = c;
    }
}

// Every octet of a range becomes the same.
pub fn fill(to: &mut [u8], c: u8)
    ensures { to.new ≡ replicate (length to.old) c }
{
    to.fill(c);
}
