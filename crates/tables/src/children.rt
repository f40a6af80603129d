// A token's children, in the order of its rule.
ghost use Rattle.std.specs.Prelude.{◌≡◌, ◌<◌, length};

use crate::accepted::Grammar;
use crate::tokens::{rule_into, token_of};
use crate::{Child, Source};
use grammar::lines::is_listed;

// The first `count` children of a rule, and the heading behind them.
// Stays an array with a count: no heap.
#[derive(Clone, Copy)]
struct RuleChildren {
    children: [Child; 4],
    count: usize,
    heading: u8,
    ghost room: { length children ≡ 4 },
    ghost faces: { heading < 6 },
}

impl RuleChildren {
    ghost use Rattle.std.specs.Prelude.{[], ◌∷◌, ◌≤◌, ◌+◌, ◌%◌};
    ghost use Rattle.turtle.specs.Walk.{letter};
    ghost use Rattle.grammar.specs.Curves.{letter_count};
    ghost use Rattle.tables.specs.Children.{children_along};
    ghost use Rattle.tables.specs.Inside.RuleChildren.{rule_symbol_by, rule_symbols_by, ChildrenOnward};

    fn none() -> RuleChildren
        ensures { (result.count ≡ 0) × (result.heading ≡ 0) }
    {
        RuleChildren {
            children: [Child {
                token: 0,
                flip: false,
            }; 4],
            count: 0,
            heading: 0,
        }
    }

    fn with_child(mut self, token: usize) -> RuleChildren
        requires { self.count < 4 }
        ensures { ChildrenOnward self (letter token ∷ []) result }
    {
        self.children[self.count] = Child {
            token,
            flip: self.heading == 3,
        };
        self.count += 1;
        self
    }

    fn with_turn(mut self, turn: u8) -> RuleChildren
        requires { turn ≤ 5 }
        ensures { (result.children ≡ self.children) × ((result.count ≡ self.count) × (result.heading ≡ (self.heading + turn) % 6)) }
    {
        self.heading = (self.heading + turn) % 6;
        self
    }

    // One byte more of a rule.
    fn with_byte(self, source: Source, b: u8) -> RuleChildren
        requires { self.count + letter_count (rule_symbol_by source b) ≤ 4 }
        ensures { ChildrenOnward self (rule_symbol_by source b) result }
    {
        if b == b'+' {
            self.with_turn(1)
        } else if b == b'-' {
            self.with_turn(5)
        } else if is_listed(source.lines, b) {
            self.with_child(token_of(source, b))
        } else {
            self
        }
    }

    fn along(source: Source, w: &[u8]) -> RuleChildren
        requires { letter_count (rule_symbols_by source w.now) ≡ 4 }
        ensures { result.children ≡ children_along 0 (rule_symbols_by source w.now) }
    {
        let mut m = RuleChildren::none();
        for b in w {
            m = m.with_byte(source, *b);
        }
        m
    }
}

impl Grammar<'_> {
    ghost use Rattle.grammar.specs.Texts.{lines_of};
    ghost use Rattle.tables.specs.Children.{children};

    pub(crate) fn children(&self, token: usize) -> [Child; 4]
        requires { token < self.now.source.count }
        ensures { result ≡ children (lines_of self.now.text.now) token }
    {
        let source = self.source;
        let mut rule = [0u8; 24];
        let n = rule_into(self.text, source.lines, source.bytes[token], &mut rule);
        RuleChildren::along(source, &rule[..n]).children
    }
}
