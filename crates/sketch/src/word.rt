// A5's seven rules and seven draws, each written once, as the uppercase letter has it.
ghost use Rattle.std.specs.Prelude.{◌≡◌};
ghost use Rattle.grammar.specs.Words.{upper};
ghost use Rattle.sketch.specs.Inside.Marks.{rule_word, draw_word, word_at};

// A motif's two words, both empty for a byte that is no motif's letter. No motif's word is empty.
#[derive(Clone, Copy)]
struct Words {
    rule: &'static [u8],
    draw: &'static [u8],
}

fn words_of(motif: u8) -> Words
    ensures { (result.rule.now ≡ rule_word motif) × (result.draw.now ≡ draw_word motif) }
{
    match motif {
        b'A' => Words {
            rule: b"PQAB",
            draw: b"E",
        },
        b'B' => Words {
            rule: b"B+++PQ---A",
            draw: b"+e-",
        },
        b'C' => Words {
            rule: b"P---RMb+++",
            draw: b"-e+",
        },
        b'M' => Words {
            rule: b"qQ+++C---b",
            draw: b"T",
        },
        b'P' => Words {
            rule: b"PpB---B+++",
            draw: b"S",
        },
        b'Q' => Words {
            rule: b"PQ---Cb+++",
            draw: b"D",
        },
        b'R' => Words {
            rule: b"b+++a---qQ",
            draw: b"+++D---",
        },
        _ => Words {
            rule: b"",
            draw: b"",
        },
    }
}

// The word that stands for a letter with so many passes left, the draw pass the last of them: its
// draw with one, its rule with more. Of a lowercase letter it is the uppercase one's, to be met
// from its end. Empty with no pass left, and of a byte that is no motif's letter.
pub(crate) fn word_of(b: u8, left: u8) -> &'static [u8]
    ensures { result.now ≡ word_at left (upper b) }
{
    let words = words_of(b.to_ascii_uppercase());
    if left == 0 {
        return b"";
    }
    if left == 1 {
        return words.draw;
    }
    words.rule
}
