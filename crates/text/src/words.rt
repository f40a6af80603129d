// The words of a line, which single spaces set apart.
ghost use Rattle.std.specs.Prelude.{◌≡◌, [], ◌+◌, ◌≤◌, length, get_or, drop};
ghost use Rattle.text.specs.Words.{until, words_of};

// The place of the first `b` from a place on; where there is none, the end.
pub fn place_of(s: &[u8], at: usize, b: u8) -> usize
    ensures { result ≡ at + until b (drop at s.now) }
{
    for i in at..s.len() {
        if s[i] == b {
            return i;
        }
    }
    at.max(s.len())
}

// How many words a line has, some of them empty where spaces meet; one at least.
pub fn count(line: &[u8]) -> usize
    ensures { result ≡ length (words_of line.now) }
{
    1 + line.iter().filter(|b| **b == b' ').count()
}

// Where word k starts, from 0; the line's end where there is none.
fn start(line: &[u8], k: usize) -> usize
    ensures { (result ≤ length line.now) × (get_or (words_of (drop result line.now)) 0 [] ≡ get_or (words_of line.now) k []) }
{
    let mut at: usize = 0;
    for _ in 0..k {
        let e = place_of(line, at, b' ');
        if e == line.len() {
            return e;
        }
        at = e + 1;
    }
    at
}

// Word k; empty where there is none.
pub fn word(line: &[u8], k: usize) -> &[u8]
    ensures { result.now ≡ get_or (words_of line.now) k [] }
{
    let a = start(line, k);
    let e = place_of(line, a, b' ');
    &line[a..e]
}
