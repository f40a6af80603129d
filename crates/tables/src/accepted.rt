// What a table is made from: a text that the tests 12 to 19 find no fault with, and a state of it.
ghost use Rattle.tables.specs.Inside.Frames.{ChildrenOf};
ghost use Rattle.tables.specs.Inside.Sources.{Ready};

use crate::{Child, Source};

// Whoever makes one shows that the lines and the tokens are the text's.
#[derive(Clone, Copy)]
pub(crate) struct Grammar<'a> {
    pub text: &'a [u8],
    pub source: Source,
    ghost ready: { Ready text.now source },
}

// A token at heading 0 or, flipped, at heading 3, and its children.
#[derive(Clone, Copy)]
pub(crate) struct State<'a> {
    pub grammar: &'a Grammar<'a>,
    pub token: usize,
    pub flip: bool,
    pub children: [Child; 4],
    ghost of: { ChildrenOf grammar.now.text.now grammar.now.source token children },
}
