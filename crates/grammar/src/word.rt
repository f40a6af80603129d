// Words of bytes: reversal, and one expansion pass over a book of words. Nothing here tests a
// grammar: any bytes may stand in a word, and a byte that the book does not have stays as it is.
ghost use Rattle.std.specs.Prelude.{option_map, ◌≡◌, ◌++◌, ◌<◌, ◌≤◌, leb, length, take, drop};
ghost use Rattle.triple.specs.Refusals.{told, said};
ghost use Rattle.triple.specs.Lent.{count_of, after_call};
ghost use Rattle.grammar.specs.Words.{mirrored, reversed, word_of, expand_once};
ghost use Rattle.grammar.specs.WordAnswers.{written};
ghost use Rattle.grammar.specs.Books.{row_word, book_of};
ghost use Rattle.grammar.specs.Inside.Replacements.{book_in, replacement_word};

use triple::refusal::Refusal;

// How many bytes were written; none by a refused call.
pub fn count(answer: Result<usize, Refusal>) -> usize
    ensures { result ≡ written (said answer) }
{
    answer.unwrap_or(0)
}

// Where each motif's word stands in a slice of bytes: row by row, for the first `count` rows, the
// motif's letter, the place of its word's first byte and the word's length. A word ends where the
// slice does, and of two rows with one letter the first counts.
// Stays arrays side by side: no heap, and the definition `book_of` of specs/Books.antt names each.
#[derive(Clone, Copy)]
pub struct Book {
    pub letters: [u8; 8],
    pub from: [usize; 8],
    pub len: [usize; 8],
    pub count: usize,
}

impl Book {
    // The word of row i.
    pub(crate) fn word<'a>(&self, words: &'a [u8], i: usize) -> &'a [u8]
        requires { i < 8 }
        ensures { result.now ≡ row_word words.now self.now.from self.now.len i }
    {
        word_at(words, self.from[i], self.len[i])
    }
}

// What stands in a byte's place after a pass: a word of the book as it is, one reversed, or the
// byte itself.
#[derive(Clone, Copy)]
enum Replacement<'a> {
    Along(&'a [u8]),
    Back(&'a [u8]),
    Itself,
}

// A byte as it is met from the other end.
pub fn mirrored(b: u8) -> u8
    ensures { result ≡ mirrored b }
{
    match b {
        b'+' => b'-',
        b'-' => b'+',
        b'a'..=b'z' => b - 32,
        b'A'..=b'Z' => b + 32,
        _ => b,
    }
}

// Stays byte by byte: `copy_from_slice` calls `memmove` here, and the header says that the library takes memcpy and memset
// alone.
fn write_along(s: &[u8], out: &mut [u8])
    requires { length s.now ≤ length out.old }
    ensures { out.new ≡ s.now ++ drop (length s.now) out.old }
{
    for k in 0..s.len() {
        out[k] = s[k];
    }
}

pub(crate) fn write_back(s: &[u8], out: &mut [u8])
    requires { length s.now ≤ length out.old }
    ensures { out.new ≡ reversed s.now ++ drop (length s.now) out.old }
{
    for (i, b) in s.iter().rev().enumerate() {
        out[i] = mirrored(*b);
    }
}

// The word traced from its end to its start.
pub fn reverse_motif(s: &[u8], out: &mut [u8]) -> Result<usize, Refusal>
    ensures { (said result ≡ count_of (told (reversed s.now)) out.old) × (out.new ≡ after_call (told (reversed s.now)) out.old) }
{
    if out.len() < s.len() {
        return Err(Refusal::Room);
    }
    write_back(s, out);
    Ok(s.len())
}

// The word of so many bytes from a place on, or of as many as there are.
pub(crate) fn word_at(words: &[u8], from: usize, len: usize) -> &[u8]
    ensures { result.now ≡ take len (drop from words.now) }
{
    let lo = from.min(words.len());
    let hi = lo + len.min(words.len() - lo);
    &words[lo..hi]
}

// A book with the bytes that its words stand in.
#[derive(Clone, Copy)]
struct Lexicon<'a> {
    bytes: &'a [u8],
    book: Book,
}

impl<'a> Lexicon<'a> {
    // A byte's word, by the first row that has the byte for its letter.
    fn find(&self, b: u8) -> Option<&'a [u8]>
        ensures { option_map (λ w. w.now) result ≡ book_in self.now b }
    {
        let rows = self.book.count.min(8);
        let letters = &self.book.letters[..rows];
        let i = letters.iter().position(|letter| *letter == b)?;
        Some(self.book.word(self.bytes, i))
    }

    fn replacement(&self, b: u8) -> Replacement<'a>
        ensures { replacement_word b result ≡ word_of (book_in self.now) b }
    {
        if let Some(w) = self.find(b) {
            return Replacement::Along(w);
        }
        match self.find(b.to_ascii_uppercase()) {
            Some(w) => Replacement::Back(w),
            None => Replacement::Itself,
        }
    }

    // How many bytes stand in a byte's place after a pass.
    fn len(&self, b: u8) -> usize
        ensures { result ≡ length (word_of (book_in self.now) b) }
    {
        match self.replacement(b) {
            Replacement::Along(w) | Replacement::Back(w) => w.len(),
            Replacement::Itself => 1,
        }
    }

    // Writes what stands in a byte's place after a pass to the front of `out`: how many bytes.
    fn write(&self, b: u8, out: &mut [u8]) -> usize
        requires { length (word_of (book_in self.now) b) ≤ length out.old }
        ensures { (result ≡ length (word_of (book_in self.now) b)) × (out.new ≡ word_of (book_in self.now) b ++ drop (length (word_of (book_in self.now) b)) out.old) }
    {
        match self.replacement(b) {
            Replacement::Along(w) => {
                write_along(w, out);
                w.len()
            }
            Replacement::Back(w) => {
                write_back(w, out);
                w.len()
            }
            Replacement::Itself => {
                out[0] = b;
                1
            }
        }
    }

    // Whether the word after a pass has at most `room` bytes. No sum is made: what each byte takes
    // comes off the room that is left.
    fn has_room(&self, s: &[u8], room: usize) -> bool
        ensures { result ≡ leb (length (expand_once (book_in self.now) s.now)) room }
    {
        let mut left = room;
        for b in s {
            let Some(rest) = left.checked_sub(self.len(*b)) else {
                return false;
            };
            left = rest;
        }
        true
    }
}

// One expansion pass: each byte that the book has becomes its word, each lowercase letter whose
// uppercase letter the book has becomes that word reversed, and any other byte stays.
pub fn expand_once(words: &[u8], book: Book, s: &[u8], out: &mut [u8]) -> Result<usize, Refusal>
    ensures { (said result ≡ count_of (told (expand_once (book_of words.now book) s.now)) out.old) × (out.new ≡ after_call (told (expand_once (book_of words.now book) s.now)) out.old) }
{
    let lexicon = Lexicon { bytes: words, book };
    if !lexicon.has_room(s, out.len()) {
        return Err(Refusal::Room);
    }
    let mut at = 0;
    for b in s {
        at += lexicon.write(*b, &mut out[at..]);
    }
    Ok(at)
}
