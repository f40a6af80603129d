// The states of a grammar: whether each one's children split cleanly, and its numbers.
ghost use Rattle.std.specs.Prelude.{◌≡◌, map, ◌<◌};
ghost use Rattle.classifier.specs.Shapes.{point_of};
ghost use Rattle.grammar.specs.Texts.{lines_of};
ghost use Rattle.tables.specs.Classifier.{classes};
ghost use Rattle.tables.specs.Inside.Frames.{starts};
ghost use Rattle.tables.specs.Inside.StateNumbers.{numbers_of};
ghost use Rattle.tables.specs.Table.{state_row};
ghost use Rattle.tables.specs.Verdicts.{splits};

use crate::StateParts;
use crate::accepted::{Grammar, State};
use classifier::splits::classifier_of;
use classifier::{Classifier, Corner};

impl State<'_> {
    #[tactic(auto, using(crate::proofs::StateLaws::stated))]
    fn classes(&self, at: [Corner; 4]) -> Classifier
        requires { map point_of at ≡ starts (lines_of self.now.grammar.now.text.now) self.now.token self.now.flip }
        ensures { result ≡ classes (lines_of self.now.grammar.now.text.now) self.now.token self.now.flip }
    {
        classifier_of(self.family(at))
    }

    // Whether its children split cleanly.
    #[tactic(auto, using(crate::proofs::StateLaws::stated))]
    fn is_whole(&self) -> bool
        ensures { result ≡ (classes (lines_of self.now.grammar.now.text.now) self.now.token self.now.flip).whole }
    {
        self.classes(self.starts()).whole
    }

    // What its 41 numbers are read from.
    pub(crate) fn parts(&self) -> StateParts
        ensures { numbers_of result ≡ state_row (lines_of self.now.grammar.now.text.now) self.now.token self.now.flip }
    {
        let children = self.children;
        let starts = self.starts();
        let drawn = self.grammar.leaves(self.token, self.flip);
        let leaves = drawn.leaves;
        let classes = self.classes(starts);
        StateParts {
            children,
            flip: self.flip,
            starts,
            leaves,
            classes,
        }
    }
}

impl Grammar<'_> {
    pub(crate) fn state(&self, token: usize, flip: bool) -> State<'_>
        requires { token < self.now.source.count }
        ensures { (result.grammar.now ≡ self.now) × ((result.token ≡ token) × (result.flip ≡ flip)) }
    {
        let children = self.children(token);
        State {
            grammar: self,
            token,
            flip,
            children,
        }
    }

    // Whether a token's children split cleanly, in either frame.
    pub(crate) fn splits(&self, token: usize) -> bool
        requires { token < self.now.source.count }
        ensures { result ≡ splits (lines_of self.now.text.now) token }
    {
        self.state(token, false).is_whole() && self.state(token, true).is_whole()
    }
}
