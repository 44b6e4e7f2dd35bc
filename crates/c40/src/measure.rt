// How many characters an image has. The test that it is one is made here, before anything is written.
ghost use Rattle.std.specs.Prelude.{cond, [], ◌≡◌, ◌+◌, ◌≤◌, leb, Some, None};
ghost use Rattle.c40.specs.Reader.{read_c40, last_pair};
ghost use Rattle.c40.specs.Inner.Left.{answered, fitted, all_three};

use crate::pair::{is_one, is_three, is_two, values_of};

// So many characters more, behind n; none where there is no room.
fn behind(n: usize, more: usize, room: usize) -> Option<usize>
    requires { n ≤ room }
    ensures { result ≡ cond (leb (n + more) room) (Some (n + more)) None }
{
    if more <= room - n {
        Some(n + more)
    } else {
        None
    }
}

// The last pair where it is not of three characters: of two or of one, behind n others.
fn last(x: u8, y: u8, n: usize, room: usize) -> Option<usize>
    requires { n ≤ room }
    ensures { result ≡ fitted room n (last_pair x y []) }
{
    if is_two(values_of(x, y)) {
        behind(n, 2, room)
    } else if is_one(x, y) {
        behind(n, 1, room)
    } else {
        None
    }
}

// Pairs of three characters and nothing else. The loop goes to the end in any case, along pairs that are counted before: so the
// compiler takes many at a time.
fn all_three(s: &[u8]) -> bool
    ensures { result ≡ all_three s.now }
{
    let (pairs, rest) = s.as_chunks::<2>();
    let mut fine = true;
    for pair in pairs {
        fine = fine & is_three(values_of(pair[0], pair[1]));
    }
    fine & rest.is_empty()
}

// Pairs of three characters up to the end, or to another pair, which must be the last.
fn paired(s: &[u8], room: usize) -> Option<usize>
    ensures { result ≡ answered (read_c40 s.now) room }
{
    let mut left = s;
    let mut n = 0;
    while let [x, y, more @ ..] = left {
        if !is_three(values_of(*x, *y)) {
            if 0 < more.len() {
                return None;
            }
            return last(*x, *y, n, room);
        }
        if room - n < 3 {
            return None;
        }
        n += 3;
        left = more;
    }
    (left.len() == 0).then_some(n)
}

// How many characters an image has, where it is one and there is room for them. As a rule there are pairs of three alone.
pub(crate) fn measured(s: &[u8], room: usize) -> Option<usize>
    ensures { result ≡ answered (read_c40 s.now) room }
{
    if all_three(s) {
        behind(0, s.len() / 2 * 3, room)
    } else {
        paired(s, room)
    }
}
